// The state table, laid beside the documented one, and a pass.
#![tactic(auto, unfolding(mt_port::specs::Board::powered_up))]

ghost use Rattle.std.specs.Prelude.{◌≡◌, [], IfOk};
ghost use Rattle.mt_port.specs.declared.request.Module.TheVariants.{FlsTst as Itself};
ghost use Rattle.mt_port.specs.PlainBoard.{plain_state};
ghost use Rattle.mt_window.specs.Serving.{IsReady};
ghost use Rattle.mt_fls.specs.Example.{example_shape};

use crate::Fls;
use mt_blocks::{FlashBlock, FlsConfig, List, Span};
use mt_port::{PlainBoard, Shape, Touch};
use mt_window::{EventLog, Refusal, Reply, ShownState, TestResult, Value};
use mt_word::{NoMemory, Width};
use std::alloc::{AllocError, Global};
use std::test::Fail;

// A row of the documented table: a service, and for UNINIT, INIT, RUNNING, SUSPENDED and ABORTED what is answered and
// the state afterwards. A dot is done, a digit the number of a refusal, a dash a tick that tests nothing, r a test that
// ran, and v an answer.
const ROWS: [(&str, [char; 5], [char; 5]); 13] = [
    ("Init", ['.', '2', '2', '2', '.'], ['I', 'I', 'R', 'S', 'I']),
    (
        "DeInit",
        ['1', '.', '.', '.', '.'],
        ['U', 'U', 'U', 'U', 'U'],
    ),
    (
        "StartFgnd 0",
        ['1', 'r', 'r', 'r', '2'],
        ['U', 'I', 'R', 'S', 'A'],
    ),
    (
        "StartFgnd 1",
        ['1', '3', '3', '3', '2'],
        ['U', 'I', 'R', 'S', 'A'],
    ),
    (
        "Abort",
        ['1', '.', '.', '.', '2'],
        ['U', 'A', 'A', 'A', 'A'],
    ),
    (
        "Suspend",
        ['1', '2', '.', '2', '2'],
        ['U', 'I', 'S', 'S', 'A'],
    ),
    (
        "Resume",
        ['1', '2', '2', '.', '2'],
        ['U', 'I', 'R', 'R', 'A'],
    ),
    (
        "MainFunction",
        ['1', 'r', 'r', '-', '-'],
        ['U', 'R', 'R', 'S', 'A'],
    ),
    (
        "GetTestResultBgnd",
        ['1', 'v', 'v', 'v', 'v'],
        ['U', 'I', 'R', 'S', 'A'],
    ),
    (
        "GetTestResultFgnd",
        ['1', 'v', 'v', 'v', 'v'],
        ['U', 'I', 'R', 'S', 'A'],
    ),
    (
        "GetErrorDetails",
        ['1', 'v', 'v', 'v', 'v'],
        ['U', 'I', 'R', 'S', 'A'],
    ),
    (
        "GetCurrentState",
        ['v', 'v', 'v', 'v', 'v'],
        ['U', 'I', 'R', 'S', 'A'],
    ),
    (
        "GetVersionInfo",
        ['v', 'v', 'v', 'v', 'v'],
        ['U', 'I', 'R', 'S', 'A'],
    ),
];

const SHAPE: Shape = Shape {
    width: Width::W8,
    ram: 1,
    flash: 16,
};

// The module over one background block of two slices, a tick for each, and one foreground block.
fn example(alloc: Global) -> Result<Fls, AllocError>
    ensures { IfOk result (λ f. f.setting.shape ≡ example_shape) }
{
    let bgnd = FlashBlock {
        span: Span { first: 0, last: 5 },
        copy: 6,
    };
    let fgnd = FlashBlock {
        span: Span {
            first: 12,
            last: 13,
        },
        copy: 14,
    };
    let config = FlsConfig {
        atomic: 4,
        cells: 4,
        interval_end: 1,
        bgnd: List::new(vec![in alloc; bgnd]?),
        fgnd: List::new(vec![in alloc; fgnd]?),
    };
    Ok(Fls::new(config, SHAPE))
}

fn board(alloc: Global) -> Result<PlainBoard, NoMemory>
    ensures ready { IfOk result (λ b. IsReady Itself (plain_state b) []) }
    ensures shape { IfOk result (λ b. (plain_state b).shape ≡ example_shape) }
    ensures start { IfOk result (λ b. (plain_state b).count ≡ 0) }
{
    PlainBoard::new(alloc, SHAPE, 0)
}

// Goes to RUNNING.
fn run(fls: &mut Fls, board: &mut PlainBoard)
    requires ready { IsReady Itself (plain_state board.old) [] }
    requires shape { (plain_state board.old).shape ≡ fls.old.setting.shape }
    requires start { (plain_state board.old).count ≡ 0 }
    ensures { fls.new.setting ≡ fls.old.setting }
{
    let mut log = EventLog::new();
    fls.init();
    fls.tick(board, &mut log);
}

// Goes to UNINIT, INIT, RUNNING, SUSPENDED or ABORTED.
fn go_to(fls: &mut Fls, board: &mut PlainBoard, state: usize)
    requires ready { IsReady Itself (plain_state board.old) [] }
    requires shape { (plain_state board.old).shape ≡ fls.old.setting.shape }
    requires start { (plain_state board.old).count ≡ 0 }
    ensures { fls.new.setting ≡ fls.old.setting }
{
    match state {
        0 => {}
        1 => {
            fls.init();
        }
        2 => run(fls, board),
        3 => {
            run(fls, board);
            fls.suspend();
        }
        _ => {
            fls.init();
            fls.abort();
        }
    }
}

// Calls the service of a row.
fn call(fls: &mut Fls, board: &mut PlainBoard, row: usize) -> Reply
    requires ready { IsReady Itself (plain_state board.old) [] }
    requires shape { (plain_state board.old).shape ≡ fls.old.setting.shape }
    requires start { (plain_state board.old).count ≡ 0 }
{
    let mut log = EventLog::new();
    match row {
        0 => fls.init(),
        1 => fls.de_init(),
        2 => fls.start_fgnd(board, &mut log, 0),
        3 => fls.start_fgnd(board, &mut log, 1),
        4 => fls.abort(),
        5 => fls.suspend(),
        6 => fls.resume(),
        7 => fls.tick(board, &mut log),
        8 => fls.get_test_result_bgnd(),
        9 => fls.get_test_result_fgnd(),
        10 => fls.get_error_details(),
        11 => fls.get_current_state(),
        _ => fls.get_version_info(),
    }
}

fn mark_of(reply: Reply) -> char {
    match reply {
        Reply::Done => '.',
        Reply::Ran(0) => '-',
        Reply::Ran(_) => 'r',
        Reply::Refused(Refusal::Uninit) => '1',
        Reply::Refused(Refusal::Status) => '2',
        Reply::Refused(Refusal::Range) => '3',
        Reply::Value(_) => 'v',
        Reply::Present => 'p',
    }
}

fn state_of(fls: &Fls) -> char {
    match fls.get_current_state() {
        Reply::Value(Value::State(ShownState::Uninit)) => 'U',
        Reply::Value(Value::State(ShownState::Init)) => 'I',
        Reply::Value(Value::State(ShownState::Running)) => 'R',
        Reply::Value(Value::State(ShownState::Suspended)) => 'S',
        Reply::Value(Value::State(ShownState::Aborted)) => 'A',
        _ => '?',
    }
}

#[test]
fn each_service_in_each_state(rt: HostRuntime) -> Result<(), Fail> {
    for (row, (service, replies, states)) in ROWS.iter().enumerate() {
        for state in 0..5 {
            let mut fls = example(rt.alloc())?;
            let mut before = board(rt.alloc())?;
            go_to(&mut fls, &mut before, state);
            let mut board = board(rt.alloc())?;
            let reply = call(&mut fls, &mut board, row);
            assert_eq!(rt; mark_of(reply), replies[state], "{service}");
            assert_eq!(rt; state_of(&fls), states[state], "{service}");
        }
    }
    Ok(())
}

fn flash(addr: u32) -> Touch {
    Touch::Flash { addr }
}

#[test]
fn an_interval_of_two_ticks(rt: HostRuntime) -> Result<(), Fail> {
    let mut fls = example(rt.alloc())?;
    fls.init();
    let mut log = EventLog::new();
    let mut first = board(rt.alloc())?;
    assert_eq!(rt; fls.tick(&mut first, &mut log), Reply::Ran(8));
    let unfinished = Value::Interval {
        id: None,
        result: TestResult::NotTested,
    };
    assert_eq!(rt; fls.get_test_result_bgnd(), Reply::Value(unfinished));
    let told = [0, 6, 1, 7, 2, 8, 3, 9].map(flash);
    assert_eq!(rt; first.tape().ok_or("told")?, told.as_slice());
    let mut log = EventLog::new();
    let mut second = board(rt.alloc())?;
    assert_eq!(rt; fls.tick(&mut second, &mut log), Reply::Ran(4));
    let completed = Value::Interval {
        id: Some(0),
        result: TestResult::Ok,
    };
    assert_eq!(rt; fls.get_test_result_bgnd(), Reply::Value(completed));
    let told = [4, 10, 5, 11].map(flash);
    assert_eq!(rt; second.tape().ok_or("told")?, told.as_slice());
    Ok(())
}
