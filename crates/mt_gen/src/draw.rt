//! The lines of the generated script, in place: a line is written over, so that nothing is made anew for each.

ghost use Rattle.std.specs.Prelude.{◌≡◌, ◌<◌, ◌+◌, ◌∷◌, [], drop};
ghost use Rattle.mt_text.specs.Lines.{line as line_with};
ghost use Rattle.mt_gen.specs.Script.{interrupt, ram_tick, fls_tick, line_of_form, drawn_line, first_lines};

use arrayvec::ArrayVec;
use mt_port::{AppOp, HandlerOp, Request};
use mt_text::{Event, FlsCall, Line, RamCall};

// A line without requests.
fn set_event(line: &mut Line, event: Event)
    ensures { line.new ≡ line_with event [] }
{
    line.event = event;
    line.requests.clear();
}

// A line with one ordinary request.
fn set_tick(line: &mut Line, event: Event, offset: u32, ops: ArrayVec<HandlerOp, 8>)
    ensures { line.new ≡ line_with event (interrupt offset ops.items) }
{
    set_event(line, event);
    line.requests.push(Request {
        offset,
        urgent: false,
        ops,
    });
}

fn draw_ram_tick(line: &mut Line, offset: u32, addr: u32, word: u64)
    ensures { line.new ≡ ram_tick offset addr word }
{
    let mut ops = ArrayVec::new();
    ops.push(HandlerOp::App(AppOp::Read { addr }));
    ops.push(HandlerOp::App(AppOp::Add { addr, word }));
    set_tick(line, Event::TickRam, offset, ops);
}

fn draw_fls_tick(line: &mut Line, offset: u32, addr: u32)
    ensures { line.new ≡ fls_tick offset addr }
{
    let mut ops = ArrayVec::new();
    ops.push(HandlerOp::App(AppOp::Flash { addr }));
    set_tick(line, Event::TickFls, offset, ops);
}

// The line of a form.
fn draw_form(line: &mut Line, form: u64, addr: u32, word: u64)
    requires addr { addr < 256 }
    requires word { word < 65536 }
    ensures { line.new ≡ line_of_form form addr word }
{
    match form {
        0..=2 => draw_ram_tick(line, (word % 512) as u32, addr, word),
        3 => set_event(line, Event::App(AppOp::Write { addr, word })),
        4 => set_event(line, Event::App(AppOp::Read { addr })),
        5 => draw_fls_tick(line, (word % 8) as u32, addr % 64),
        6 => set_event(line, Event::Ram(RamCall::GetTestResult)),
        _ => set_event(
            line,
            Event::App(AppOp::Copy {
                src: addr,
                dst: (word % 256) as u32,
            }),
        ),
    }
}

/// The line of a number, whatever the line was.
#[tactic(auto, unfolding(crate::specs::Script::drawn_line))]
pub fn draw_line(line: &mut Line, number: u64)
    ensures { line.new ≡ drawn_line number }
{
    let upper = number >> 33;
    draw_form(
        line,
        upper % 8,
        (upper / 8 % 256) as u32,
        upper / 2048 % 65536,
    );
}

/// One of the first three lines, counted from 0, whatever the line was.
pub fn draw_first(line: &mut Line, index: u32)
    requires { index < 3 }
    ensures { drop index first_lines ≡ line.new ∷ drop (index + 1) first_lines }
{
    match index {
        0 => set_event(line, Event::Ram(RamCall::Init)),
        1 => set_event(line, Event::Fls(FlsCall::Init)),
        _ => set_event(line, Event::Ram(RamCall::Allow)),
    }
}
