//! The canonical text of an event and of a handler's operation.

ghost use Rattle.std.specs.Prelude.{◌≡◌, ◌≤◌, ◌+◌, ◌++◌, ◌∷◌, [], true, false, codes, decimal, length};
ghost use Rattle.mt_hex.specs.Digits.{word_text};
ghost use Rattle.mt_text.specs.RamServices.{ram_name};
ghost use Rattle.mt_text.specs.FlsServices.{fls_name};
ghost use Rattle.mt_text.specs.declared.names.RamService.TheVariants.{GetTestResultPerBlock};
ghost use Rattle.mt_text.specs.Canonical.{ram_parts, fls_parts, argument, ram_words, fls_words, app_words, spot_text, bit_text, direction_text, wiring_text, fault_words, event_words, call_words, op_words, text_of, shown, words, spaced_words};

use crate::line::{Event, FlsCall, RamCall};
use crate::names::{FlsService, RamService};
use arrayvec::ArrayVec;
use mt_fault::{Fault, Spot};
use mt_hex::{push_bytes, push_number, push_word};
use mt_port::{AppOp, HandlerCall, HandlerOp};
use mt_word::Width;

/// The longest line: an event of at most 64 bytes, 16 requests of at most 358, and a line feed.
pub type LineText = ArrayVec<u8, 6144>;

/// Appends a token behind a space or behind none.
pub fn push_token(out: &mut LineText, spaced: bool, bytes: &[u8])
    requires { length out.old.items + length bytes.now + 1 ≤ 6144 }
    ensures text { out.new.items ≡ out.old.items ++ shown spaced bytes.now }
    ensures short { length out.new.items ≤ length out.old.items + length bytes.now + 1 }
{
    if spaced {
        out.push(b' ');
    }
    push_bytes(out, bytes);
}

pub fn push_argument(out: &mut LineText, n: u32)
    requires { length out.old.items + 11 ≤ 6144 }
    ensures text { out.new.items ≡ out.old.items ++ 32 ∷ decimal n }
    ensures short { length out.new.items ≤ length out.old.items + 11 }
{
    out.push(b' ');
    push_number(out, n);
}

fn push_data(out: &mut LineText, width: Width, word: u64)
    requires { length out.old.items + 17 ≤ 6144 }
    ensures text { out.new.items ≡ out.old.items ++ 32 ∷ word_text width word }
    ensures short { length out.new.items ≤ length out.old.items + 17 }
{
    out.push(b' ');
    push_word(out, width, word);
}

fn push_spot(out: &mut LineText, spot: Spot)
    requires { length out.old.items + 22 ≤ 6144 }
    ensures text { out.new.items ≡ out.old.items ++ 32 ∷ spot_text spot }
    ensures short { length out.new.items ≤ length out.old.items + 22 }
{
    push_argument(out, spot.word);
    out.push(b'.');
    push_number(out, u32::from(spot.bit));
}

fn push_bit(out: &mut LineText, value: bool)
    requires { length out.old.items + 2 ≤ 6144 }
    ensures text { out.new.items ≡ out.old.items ++ 32 ∷ bit_text value }
    ensures short { length out.new.items ≤ length out.old.items + 2 }
{
    let text: &[u8] = if value { b"1" } else { b"0" };
    push_token(out, true, text);
}

fn push_direction(out: &mut LineText, rise: bool)
    requires { length out.old.items + 5 ≤ 6144 }
    ensures text { out.new.items ≡ out.old.items ++ 32 ∷ direction_text rise }
    ensures short { length out.new.items ≤ length out.old.items + 5 }
{
    if rise {
        push_token(out, true, b"up")
    } else {
        push_token(out, true, b"down")
    }
}

fn push_wiring(out: &mut LineText, wired_and: bool)
    requires { length out.old.items + 4 ≤ 6144 }
    ensures text { out.new.items ≡ out.old.items ++ 32 ∷ wiring_text wired_and }
    ensures short { length out.new.items ≤ length out.old.items + 4 }
{
    if wired_and {
        push_token(out, true, b"and")
    } else {
        push_token(out, true, b"or")
    }
}

fn ram_parts(call: RamCall) -> (RamService, Option<u32>)
    ensures { result ≡ ram_parts call }
{
    match call {
        RamCall::Init => (RamService::Init, None),
        RamCall::DeInit => (RamService::DeInit, None),
        RamCall::Stop => (RamService::Stop, None),
        RamCall::Allow => (RamService::Allow, None),
        RamCall::Suspend => (RamService::Suspend, None),
        RamCall::Resume => (RamService::Resume, None),
        RamCall::GetExecutionStatus => (RamService::GetExecutionStatus, None),
        RamCall::GetTestResult => (RamService::GetTestResult, None),
        RamCall::GetTestResultPerBlock(n) => (RamService::GetTestResultPerBlock, Some(n)),
        RamCall::GetAlgParams => (RamService::GetAlgParams, None),
        RamCall::GetTestAlgorithm => (RamService::GetTestAlgorithm, None),
        RamCall::GetNumberOfTestedCells => (RamService::GetNumberOfTestedCells, None),
        RamCall::SelectAlgParams(n) => (RamService::SelectAlgParams, Some(n)),
        RamCall::ChangeNumberOfTestedCells(n) => (RamService::ChangeNumberOfTestedCells, Some(n)),
        RamCall::RunFullTest => (RamService::RunFullTest, None),
        RamCall::RunPartialTest(n) => (RamService::RunPartialTest, Some(n)),
        RamCall::GetVersionInfo => (RamService::GetVersionInfo, None),
    }
}

fn fls_parts(call: FlsCall) -> (FlsService, Option<u32>)
    ensures { result ≡ fls_parts call }
{
    match call {
        FlsCall::Init => (FlsService::Init, None),
        FlsCall::DeInit => (FlsService::DeInit, None),
        FlsCall::StartFgnd(n) => (FlsService::StartFgnd, Some(n)),
        FlsCall::Abort => (FlsService::Abort, None),
        FlsCall::Suspend => (FlsService::Suspend, None),
        FlsCall::Resume => (FlsService::Resume, None),
        FlsCall::GetCurrentState => (FlsService::GetCurrentState, None),
        FlsCall::GetTestResultBgnd => (FlsService::GetTestResultBgnd, None),
        FlsCall::GetTestResultFgnd => (FlsService::GetTestResultFgnd, None),
        FlsCall::GetErrorDetails => (FlsService::GetErrorDetails, None),
        FlsCall::GetVersionInfo => (FlsService::GetVersionInfo, None),
    }
}

fn push_argument_if_any(out: &mut LineText, given: Option<u32>)
    requires { length out.old.items + 11 ≤ 6144 }
    ensures text { out.new.items ≡ out.old.items ++ text_of (spaced_words (argument given)) }
    ensures short { length out.new.items ≤ length out.old.items + 11 }
{
    if let Some(n) = given {
        push_argument(out, n);
    }
}

/// Appends the word of RamTst and the name of a service.
fn push_ram_service(out: &mut LineText, spaced: bool, service: RamService)
    requires { length out.old.items + 30 ≤ 6144 }
    ensures text { out.new.items ≡ out.old.items ++ text_of (words spaced (codes "ram" ∷ ram_name service ∷ [])) }
    ensures short { length out.new.items ≤ length out.old.items + 30 }
{
    push_token(out, spaced, b"ram");
    push_token(out, true, service.name());
}

/// Appends the word of FlsTst and the name of a service.
fn push_fls_service(out: &mut LineText, spaced: bool, service: FlsService)
    requires { length out.old.items + 30 ≤ 6144 }
    ensures text { out.new.items ≡ out.old.items ++ text_of (words spaced (codes "fls" ∷ fls_name service ∷ [])) }
    ensures short { length out.new.items ≤ length out.old.items + 30 }
{
    push_token(out, spaced, b"fls");
    push_token(out, true, service.name());
}

/// Appends a call of RamTst.
fn push_ram_call(out: &mut LineText, call: RamCall)
    requires { length out.old.items + 40 ≤ 6144 }
    ensures text { out.new.items ≡ out.old.items ++ text_of (words false (codes "ram" ∷ ram_words call)) }
    ensures short { length out.new.items ≤ length out.old.items + 40 }
{
    let (service, given) = ram_parts(call);
    push_ram_service(out, false, service);
    push_argument_if_any(out, given);
}

/// Appends a call of FlsTst.
fn push_fls_call(out: &mut LineText, call: FlsCall)
    requires { length out.old.items + 40 ≤ 6144 }
    ensures text { out.new.items ≡ out.old.items ++ text_of (words false (codes "fls" ∷ fls_words call)) }
    ensures short { length out.new.items ≤ length out.old.items + 40 }
{
    let (service, given) = fls_parts(call);
    push_fls_service(out, false, service);
    push_argument_if_any(out, given);
}

/// Appends an application operation.
fn push_app_op(out: &mut LineText, spaced: bool, width: Width, op: AppOp)
    requires { length out.old.items + 33 ≤ 6144 }
    ensures text { out.new.items ≡ out.old.items ++ text_of (words spaced (app_words width op)) }
    ensures short { length out.new.items ≤ length out.old.items + 33 }
{
    match op {
        AppOp::Read { addr } => {
            push_token(out, spaced, b"r");
            push_argument(out, addr);
        }
        AppOp::Write { addr, word } => {
            push_token(out, spaced, b"w");
            push_argument(out, addr);
            push_data(out, width, word);
        }
        AppOp::Add { addr, word } => {
            push_token(out, spaced, b"add");
            push_argument(out, addr);
            push_data(out, width, word);
        }
        AppOp::Copy { src, dst } => {
            push_token(out, spaced, b"copy");
            push_argument(out, src);
            push_argument(out, dst);
        }
        AppOp::Flash { addr } => {
            push_token(out, spaced, b"f");
            push_argument(out, addr);
        }
    }
}

/// Appends the name of a fault of one bit, and its spot.
fn push_single(out: &mut LineText, name: &[u8], vic: Spot)
    requires { length out.old.items + length name.now + 23 ≤ 6144 }
    ensures text { out.new.items ≡ out.old.items ++ text_of (spaced_words (name.now ∷ spot_text vic ∷ [])) }
    ensures short { length out.new.items ≤ length out.old.items + length name.now + 23 }
{
    push_token(out, true, name);
    push_spot(out, vic);
}

/// Appends the spots of an aggressor and of its victim.
fn push_pair(out: &mut LineText, agg: Spot, vic: Spot)
    requires { length out.old.items + 44 ≤ 6144 }
    ensures text { out.new.items ≡ out.old.items ++ text_of (spaced_words (spot_text agg ∷ spot_text vic ∷ [])) }
    ensures short { length out.new.items ≤ length out.old.items + 44 }
{
    push_spot(out, agg);
    push_spot(out, vic);
}

/// Appends the name of a fault, and two addresses.
fn push_addresses(out: &mut LineText, name: &[u8], addr: u32, other: u32)
    requires { length out.old.items + length name.now + 23 ≤ 6144 }
    ensures text { out.new.items ≡ out.old.items
        ++ text_of (spaced_words (name.now ∷ decimal addr ∷ decimal other ∷ [])) }
    ensures short { length out.new.items ≤ length out.old.items + length name.now + 23 }
{
    push_token(out, true, name);
    push_argument(out, addr);
    push_argument(out, other);
}

fn push_stuck_at(out: &mut LineText, vic: Spot, value: bool)
    requires { length out.old.items + 27 ≤ 6144 }
    ensures text { out.new.items ≡ out.old.items
        ++ text_of (spaced_words (codes "sa" ∷ spot_text vic ∷ bit_text value ∷ [])) }
    ensures short { length out.new.items ≤ length out.old.items + 27 }
{
    push_single(out, b"sa", vic);
    push_bit(out, value);
}

fn push_invert(out: &mut LineText, agg: Spot, rise: bool, vic: Spot)
    requires { length out.old.items + 54 ≤ 6144 }
    ensures text { out.new.items ≡ out.old.items
        ++ text_of (spaced_words (codes "cfin" ∷ direction_text rise ∷ spot_text agg ∷ spot_text vic ∷ [])) }
    ensures short { length out.new.items ≤ length out.old.items + 54 }
{
    push_token(out, true, b"cfin");
    push_direction(out, rise);
    push_pair(out, agg, vic);
}

fn push_force(out: &mut LineText, agg: Spot, rise: bool, vic: Spot, value: bool)
    requires { length out.old.items + 56 ≤ 6144 }
    ensures text { out.new.items ≡ out.old.items
        ++ text_of (spaced_words (codes "cfid" ∷ direction_text rise ∷ spot_text agg ∷ spot_text vic
        ∷ bit_text value ∷ [])) }
    ensures short { length out.new.items ≤ length out.old.items + 56 }
{
    push_token(out, true, b"cfid");
    push_direction(out, rise);
    push_pair(out, agg, vic);
    push_bit(out, value);
}

fn push_state(out: &mut LineText, agg: Spot, holds: bool, vic: Spot, value: bool)
    requires { length out.old.items + 53 ≤ 6144 }
    ensures text { out.new.items ≡ out.old.items
        ++ text_of (spaced_words (codes "cfst" ∷ bit_text holds ∷ spot_text agg ∷ spot_text vic ∷ bit_text value
        ∷ [])) }
    ensures short { length out.new.items ≤ length out.old.items + 53 }
{
    push_token(out, true, b"cfst");
    push_bit(out, holds);
    push_pair(out, agg, vic);
    push_bit(out, value);
}

fn push_no_cell(out: &mut LineText, width: Width, addr: u32, seen: u64)
    requires { length out.old.items + 36 ≤ 6144 }
    ensures text { out.new.items ≡ out.old.items
        ++ text_of (spaced_words (codes "af-none" ∷ decimal addr ∷ word_text width seen ∷ [])) }
    ensures short { length out.new.items ≤ length out.old.items + 36 }
{
    push_token(out, true, b"af-none");
    push_argument(out, addr);
    push_data(out, width, seen);
}

fn push_also(out: &mut LineText, addr: u32, other: u32, wired_and: bool)
    requires { length out.old.items + 34 ≤ 6144 }
    ensures text { out.new.items ≡ out.old.items
        ++ text_of (spaced_words (codes "af-also" ∷ decimal addr ∷ decimal other ∷ wiring_text wired_and ∷ [])) }
    ensures short { length out.new.items ≤ length out.old.items + 34 }
{
    push_addresses(out, b"af-also", addr, other);
    push_wiring(out, wired_and);
}

/// Appends a fault behind `inject`.
fn push_fault(out: &mut LineText, width: Width, fault: Fault)
    requires { length out.old.items + 58 ≤ 6144 }
    ensures text { out.new.items ≡ out.old.items ++ text_of (spaced_words (fault_words width fault)) }
    ensures short { length out.new.items ≤ length out.old.items + 58 }
{
    match fault {
        Fault::StuckAt { vic, value } => push_stuck_at(out, vic, value),
        Fault::CannotRise { vic } => push_single(out, b"tf-up", vic),
        Fault::CannotFall { vic } => push_single(out, b"tf-down", vic),
        Fault::Invert { agg, rise, vic } => push_invert(out, agg, rise, vic),
        Fault::Force {
            agg,
            rise,
            vic,
            value,
        } => push_force(out, agg, rise, vic, value),
        Fault::State {
            agg,
            holds,
            vic,
            value,
        } => push_state(out, agg, holds, vic, value),
        Fault::NoCell { addr, seen } => push_no_cell(out, width, addr, seen),
        Fault::Also {
            addr,
            other,
            wired_and,
        } => push_also(out, addr, other, wired_and),
        Fault::Instead { addr, other } => push_addresses(out, b"af-instead", addr, other),
    }
}

/// Appends an event.
pub fn push_event(out: &mut LineText, width: Width, event: Event)
    requires { length out.old.items + 64 ≤ 6144 }
    ensures text { out.new.items ≡ out.old.items ++ text_of (words false (event_words width event)) }
    ensures short { length out.new.items ≤ length out.old.items + 64 }
{
    match event {
        Event::Nothing => {}
        Event::Ram(call) => push_ram_call(out, call),
        Event::Fls(call) => push_fls_call(out, call),
        Event::TickRam => push_bytes(out, b"tick ram"),
        Event::TickFls => push_bytes(out, b"tick fls"),
        Event::App(op) => {
            push_bytes(out, b"app");
            push_app_op(out, true, width, op);
        }
        Event::Inject(fault) => {
            push_bytes(out, b"inject");
            push_fault(out, width, fault);
        }
        Event::Heal => push_bytes(out, b"heal"),
        Event::Burn { addr, word } => {
            push_bytes(out, b"burn");
            push_argument(out, addr);
            push_data(out, width, word);
        }
        Event::Flip(spot) => {
            push_bytes(out, b"flip");
            push_spot(out, spot);
        }
    }
}

fn push_result_of_block(out: &mut LineText, spaced: bool, block: u32)
    requires { length out.old.items + 41 ≤ 6144 }
    ensures text { out.new.items ≡ out.old.items
        ++ text_of (words spaced (codes "ram" ∷ ram_name GetTestResultPerBlock ∷ decimal block ∷ [])) }
    ensures short { length out.new.items ≤ length out.old.items + 41 }
{
    push_ram_service(out, spaced, RamService::GetTestResultPerBlock);
    push_argument(out, block);
}

/// Appends a call of a handler.
fn push_handler_call(out: &mut LineText, spaced: bool, call: HandlerCall)
    requires { length out.old.items + 41 ≤ 6144 }
    ensures text { out.new.items ≡ out.old.items ++ text_of (words spaced (call_words call)) }
    ensures short { length out.new.items ≤ length out.old.items + 41 }
{
    match call {
        HandlerCall::RamAllow => push_ram_service(out, spaced, RamService::Allow),
        HandlerCall::RamStop => push_ram_service(out, spaced, RamService::Stop),
        HandlerCall::RamSuspend => push_ram_service(out, spaced, RamService::Suspend),
        HandlerCall::RamResume => push_ram_service(out, spaced, RamService::Resume),
        HandlerCall::RamGetExecutionStatus => push_ram_service(
            out,
            spaced,
            RamService::GetExecutionStatus,
        ),
        HandlerCall::RamGetTestResult => push_ram_service(out, spaced, RamService::GetTestResult),
        HandlerCall::RamGetTestResultPerBlock(block) => push_result_of_block(out, spaced, block),
        HandlerCall::FlsSuspend => push_fls_service(out, spaced, FlsService::Suspend),
        HandlerCall::FlsResume => push_fls_service(out, spaced, FlsService::Resume),
        HandlerCall::FlsAbort => push_fls_service(out, spaced, FlsService::Abort),
        HandlerCall::FlsGetCurrentState => push_fls_service(
            out,
            spaced,
            FlsService::GetCurrentState,
        ),
        HandlerCall::FlsGetTestResultBgnd => push_fls_service(
            out,
            spaced,
            FlsService::GetTestResultBgnd,
        ),
        HandlerCall::FlsGetTestResultFgnd => push_fls_service(
            out,
            spaced,
            FlsService::GetTestResultFgnd,
        ),
    }
}

/// Appends an operation of a handler.
pub fn push_op(out: &mut LineText, spaced: bool, width: Width, op: HandlerOp)
    requires { length out.old.items + 41 ≤ 6144 }
    ensures text { out.new.items ≡ out.old.items ++ text_of (words spaced (op_words width op)) }
    ensures short { length out.new.items ≤ length out.old.items + 41 }
{
    match op {
        HandlerOp::App(op) => push_app_op(out, spaced, width, op),
        HandlerOp::Call(call) => push_handler_call(out, spaced, call),
    }
}
