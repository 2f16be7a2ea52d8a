//! Services on a line and in a handler.

ghost use Rattle.mt_text.specs.Reader.{Reads, ReadsEntry};
ghost use Rattle.mt_text.specs.RamServices.{ram_call, ram_entry, ram_handler_call, ram_handler_entry};
ghost use Rattle.mt_text.specs.FlsServices.{fls_call, fls_entry, fls_handler_call, fls_handler_entry};

use crate::cursor::Cursor;
use crate::line::{FlsCall, LineKind, LineRefusal, RamCall};
use crate::names::{FlsService, RamService, fls_service, ram_service};
use crate::value::{NumberPlace, refused, value};
use mt_port::{HandlerCall, Shape};

/// Reads a service of RamTst.
pub fn ram_call(shape: Shape, cursor: &mut Cursor<'_>) -> Result<RamCall, LineRefusal>
    ensures { Reads shape ram_call cursor.old cursor.new result }
{
    let word = cursor.next()?;
    match ram_service(word.bytes) {
        None => refused(LineKind::Spelling, word.place),
        Some(service) => ram_call_of(service, word.place, shape, cursor),
    }
}

#[tactic(auto, unfolding(crate::specs::Reader::read))]
fn ram_call_of(
    service: RamService,
    place: u32,
    shape: Shape,
    cursor: &mut Cursor<'_>,
) -> Result<RamCall, LineRefusal>
    ensures { ReadsEntry shape (ram_entry service) place cursor.old cursor.new result }
{
    match service {
        RamService::Init => Ok(RamCall::Init),
        RamService::DeInit => Ok(RamCall::DeInit),
        RamService::Stop => Ok(RamCall::Stop),
        RamService::Allow => Ok(RamCall::Allow),
        RamService::Suspend => Ok(RamCall::Suspend),
        RamService::Resume => Ok(RamCall::Resume),
        RamService::GetExecutionStatus => Ok(RamCall::GetExecutionStatus),
        RamService::GetTestResult => Ok(RamCall::GetTestResult),
        RamService::GetTestResultPerBlock => Ok(RamCall::GetTestResultPerBlock(value(
            NumberPlace::Any,
            shape,
            cursor,
        )?)),
        RamService::GetAlgParams => Ok(RamCall::GetAlgParams),
        RamService::GetTestAlgorithm => Ok(RamCall::GetTestAlgorithm),
        RamService::GetNumberOfTestedCells => Ok(RamCall::GetNumberOfTestedCells),
        RamService::SelectAlgParams => Ok(RamCall::SelectAlgParams(value(
            NumberPlace::Any,
            shape,
            cursor,
        )?)),
        RamService::ChangeNumberOfTestedCells => Ok(RamCall::ChangeNumberOfTestedCells(value(
            NumberPlace::Any,
            shape,
            cursor,
        )?)),
        RamService::RunFullTest => Ok(RamCall::RunFullTest),
        RamService::RunPartialTest => Ok(RamCall::RunPartialTest(value(
            NumberPlace::Any,
            shape,
            cursor,
        )?)),
        RamService::GetVersionInfo => Ok(RamCall::GetVersionInfo),
    }
}

/// Reads a service of RamTst in a handler.
pub fn ram_handler_call(shape: Shape, cursor: &mut Cursor<'_>) -> Result<HandlerCall, LineRefusal>
    ensures { Reads shape ram_handler_call cursor.old cursor.new result }
{
    let word = cursor.next()?;
    match ram_service(word.bytes) {
        None => refused(LineKind::Spelling, word.place),
        Some(service) => ram_handler_call_of(service, word.place, shape, cursor),
    }
}

#[tactic(auto, unfolding(crate::specs::Reader::read))]
fn ram_handler_call_of(
    service: RamService,
    place: u32,
    shape: Shape,
    cursor: &mut Cursor<'_>,
) -> Result<HandlerCall, LineRefusal>
    ensures { ReadsEntry shape (ram_handler_entry service) place cursor.old cursor.new result }
{
    match service {
        RamService::Stop => Ok(HandlerCall::RamStop),
        RamService::Allow => Ok(HandlerCall::RamAllow),
        RamService::Suspend => Ok(HandlerCall::RamSuspend),
        RamService::Resume => Ok(HandlerCall::RamResume),
        RamService::GetExecutionStatus => Ok(HandlerCall::RamGetExecutionStatus),
        RamService::GetTestResult => Ok(HandlerCall::RamGetTestResult),
        RamService::GetTestResultPerBlock => Ok(HandlerCall::RamGetTestResultPerBlock(value(
            NumberPlace::Any,
            shape,
            cursor,
        )?)),
        RamService::Init
        | RamService::DeInit
        | RamService::GetAlgParams
        | RamService::GetTestAlgorithm
        | RamService::GetNumberOfTestedCells
        | RamService::SelectAlgParams
        | RamService::ChangeNumberOfTestedCells
        | RamService::RunFullTest
        | RamService::RunPartialTest
        | RamService::GetVersionInfo => refused(LineKind::NotInHandler, place),
    }
}

/// Reads a service of FlsTst.
pub fn fls_call(shape: Shape, cursor: &mut Cursor<'_>) -> Result<FlsCall, LineRefusal>
    ensures { Reads shape fls_call cursor.old cursor.new result }
{
    let word = cursor.next()?;
    match fls_service(word.bytes) {
        None => refused(LineKind::Spelling, word.place),
        Some(service) => fls_call_of(service, word.place, shape, cursor),
    }
}

#[tactic(auto, unfolding(crate::specs::Reader::read))]
fn fls_call_of(
    service: FlsService,
    place: u32,
    shape: Shape,
    cursor: &mut Cursor<'_>,
) -> Result<FlsCall, LineRefusal>
    ensures { ReadsEntry shape (fls_entry service) place cursor.old cursor.new result }
{
    match service {
        FlsService::Init => Ok(FlsCall::Init),
        FlsService::DeInit => Ok(FlsCall::DeInit),
        FlsService::StartFgnd => Ok(FlsCall::StartFgnd(value(NumberPlace::Any, shape, cursor)?)),
        FlsService::Abort => Ok(FlsCall::Abort),
        FlsService::Suspend => Ok(FlsCall::Suspend),
        FlsService::Resume => Ok(FlsCall::Resume),
        FlsService::GetCurrentState => Ok(FlsCall::GetCurrentState),
        FlsService::GetTestResultBgnd => Ok(FlsCall::GetTestResultBgnd),
        FlsService::GetTestResultFgnd => Ok(FlsCall::GetTestResultFgnd),
        FlsService::GetErrorDetails => Ok(FlsCall::GetErrorDetails),
        FlsService::GetVersionInfo => Ok(FlsCall::GetVersionInfo),
    }
}

/// Reads a service of FlsTst in a handler.
pub fn fls_handler_call(shape: Shape, cursor: &mut Cursor<'_>) -> Result<HandlerCall, LineRefusal>
    ensures { Reads shape fls_handler_call cursor.old cursor.new result }
{
    let word = cursor.next()?;
    match fls_service(word.bytes) {
        None => refused(LineKind::Spelling, word.place),
        Some(service) => fls_handler_call_of(service, word.place, shape, cursor),
    }
}

#[tactic(auto, unfolding(crate::specs::Reader::read))]
fn fls_handler_call_of(
    service: FlsService,
    place: u32,
    shape: Shape,
    cursor: &mut Cursor<'_>,
) -> Result<HandlerCall, LineRefusal>
    ensures { ReadsEntry shape (fls_handler_entry service) place cursor.old cursor.new result }
{
    match service {
        FlsService::Abort => Ok(HandlerCall::FlsAbort),
        FlsService::Suspend => Ok(HandlerCall::FlsSuspend),
        FlsService::Resume => Ok(HandlerCall::FlsResume),
        FlsService::GetCurrentState => Ok(HandlerCall::FlsGetCurrentState),
        FlsService::GetTestResultBgnd => Ok(HandlerCall::FlsGetTestResultBgnd),
        FlsService::GetTestResultFgnd => Ok(HandlerCall::FlsGetTestResultFgnd),
        FlsService::Init
        | FlsService::DeInit
        | FlsService::StartFgnd
        | FlsService::GetErrorDetails
        | FlsService::GetVersionInfo => refused(LineKind::NotInHandler, place),
    }
}
