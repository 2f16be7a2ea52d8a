// The state table, laid beside the documented one.
#![tactic(auto, unfolding(mt_port::specs::Board::powered_up))]

ghost use Rattle.std.specs.Prelude.{◌≡◌, [], IfOk};
ghost use Rattle.mt_port.specs.declared.request.Module.TheVariants.{RamTst as Itself};
ghost use Rattle.mt_port.specs.PlainBoard.{plain_state};
ghost use Rattle.mt_window.specs.Serving.{IsReady};
ghost use Rattle.mt_ram.specs.Example.{example_shape};

use crate::Ram;
use mt_blocks::{Block, List, ParamSet, RamConfig, Span};
use mt_plan::{Algorithm, Policy};
use mt_port::{PlainBoard, Shape};
use mt_window::{EventLog, Refusal, Reply, ShownState, Value};
use mt_word::{NoMemory, Width};
use std::alloc::{AllocError, Global};
use std::test::Fail;

// A row of the documented table: a service, and for UNINIT, STOPPED, RUNNING and SUSPENDED what is answered and the
// state afterwards. A dot is done, a digit the number of a refusal, a dash a tick that tests nothing, r a test that ran,
// and v an answer.
const ROWS: [(&str, [char; 4], [char; 4]); 22] = [
    ("Init", ['.', '2', '2', '2'], ['S', 'S', 'R', 'P']),
    ("DeInit", ['1', '.', '.', '.'], ['U', 'U', 'U', 'U']),
    ("Allow", ['1', '.', '2', '2'], ['U', 'R', 'R', 'P']),
    ("Stop", ['1', '2', '.', '.'], ['U', 'S', 'S', 'S']),
    ("Suspend", ['1', '2', '.', '2'], ['U', 'S', 'P', 'P']),
    ("Resume", ['1', '2', '2', '.'], ['U', 'S', 'R', 'R']),
    (
        "SelectAlgParams 0",
        ['1', '.', '2', '2'],
        ['U', 'S', 'R', 'P'],
    ),
    (
        "SelectAlgParams 1",
        ['1', '3', '2', '2'],
        ['U', 'S', 'R', 'P'],
    ),
    (
        "ChangeNumberOfTestedCells 4",
        ['1', '.', '2', '2'],
        ['U', 'S', 'R', 'P'],
    ),
    (
        "ChangeNumberOfTestedCells 3",
        ['1', '3', '2', '2'],
        ['U', 'S', 'R', 'P'],
    ),
    ("RunFullTest", ['1', 'r', '2', '2'], ['U', 'S', 'R', 'P']),
    (
        "RunPartialTest 0",
        ['1', 'r', '2', 'r'],
        ['U', 'S', 'R', 'P'],
    ),
    (
        "RunPartialTest 1",
        ['1', '3', '2', '3'],
        ['U', 'S', 'R', 'P'],
    ),
    ("MainFunction", ['1', '-', 'r', '-'], ['U', 'S', 'R', 'P']),
    (
        "GetTestResultPerBlock 0",
        ['1', 'v', 'v', 'v'],
        ['U', 'S', 'R', 'P'],
    ),
    (
        "GetTestResultPerBlock 1",
        ['1', '3', '3', '3'],
        ['U', 'S', 'R', 'P'],
    ),
    ("GetTestResult", ['1', 'v', 'v', 'v'], ['U', 'S', 'R', 'P']),
    ("GetAlgParams", ['1', 'v', 'v', 'v'], ['U', 'S', 'R', 'P']),
    (
        "GetTestAlgorithm",
        ['1', 'v', 'v', 'v'],
        ['U', 'S', 'R', 'P'],
    ),
    (
        "GetNumberOfTestedCells",
        ['1', 'v', 'v', 'v'],
        ['U', 'S', 'R', 'P'],
    ),
    (
        "GetExecutionStatus",
        ['v', 'v', 'v', 'v'],
        ['U', 'S', 'R', 'P'],
    ),
    ("GetVersionInfo", ['v', 'v', 'v', 'v'], ['U', 'S', 'R', 'P']),
];

const SHAPE: Shape = Shape {
    width: Width::W8,
    ram: 10,
    flash: 0,
};

// The module over one set of one block.
fn example(alloc: Global) -> Result<Ram, AllocError>
    ensures { IfOk result (λ r. r.setting.shape ≡ example_shape) }
{
    let block = Block {
        span: Span { first: 0, last: 9 },
        policy: Policy::NonDestructive,
        fill: 0,
    };
    let set = ParamSet {
        alg: Algorithm::Checkerboard,
        background: 0,
        atomic: 4,
        cells: 8,
        blocks: List::new(vec![in alloc; block]?),
        retries: 2,
    };
    let config = RamConfig {
        sets: List::new(vec![in alloc; set]?),
    };
    Ok(Ram::new(config, SHAPE))
}

// Goes to UNINIT, STOPPED, RUNNING or SUSPENDED.
fn go_to(ram: &mut Ram, state: usize)
    ensures { ram.new.setting ≡ ram.old.setting }
{
    match state {
        0 => {}
        1 => {
            ram.init();
        }
        2 => {
            ram.init();
            ram.allow();
        }
        _ => {
            ram.init();
            ram.allow();
            ram.suspend();
        }
    }
}

fn board(alloc: Global) -> Result<PlainBoard, NoMemory>
    ensures ready { IfOk result (λ b. IsReady Itself (plain_state b) []) }
    ensures shape { IfOk result (λ b. (plain_state b).shape ≡ example_shape) }
    ensures start { IfOk result (λ b. (plain_state b).count ≡ 0) }
{
    PlainBoard::new(alloc, SHAPE, 0)
}

// Calls the service of a row.
fn call(ram: &mut Ram, board: &mut PlainBoard, row: usize) -> Reply
    requires ready { IsReady Itself (plain_state board.old) [] }
    requires shape { (plain_state board.old).shape ≡ ram.old.setting.shape }
    requires start { (plain_state board.old).count ≡ 0 }
{
    let mut log = EventLog::new();
    match row {
        0 => ram.init(),
        1 => ram.de_init(),
        2 => ram.allow(),
        3 => ram.stop(),
        4 => ram.suspend(),
        5 => ram.resume(),
        6 => ram.select_alg_params(0),
        7 => ram.select_alg_params(1),
        8 => ram.change_number_of_tested_cells(4),
        9 => ram.change_number_of_tested_cells(3),
        10 => ram.run_full(board, &mut log),
        11 => ram.run_partial(board, &mut log, 0),
        12 => ram.run_partial(board, &mut log, 1),
        13 => ram.tick(board, &mut log),
        14 => ram.get_test_result_per_block(0),
        15 => ram.get_test_result_per_block(1),
        16 => ram.get_test_result(),
        17 => ram.get_alg_params(),
        18 => ram.get_test_algorithm(),
        19 => ram.get_number_of_tested_cells(),
        20 => ram.get_execution_status(),
        _ => ram.get_version_info(),
    }
}

fn mark_of(reply: Reply) -> char {
    match reply {
        Reply::Done => '.',
        Reply::Ran(0) => '-',
        Reply::Ran(_) => 'r',
        Reply::Refused(Refusal::Uninit) => '1',
        Reply::Refused(Refusal::Status) => '2',
        Reply::Refused(Refusal::Range) => '3',
        Reply::Value(_) => 'v',
        Reply::Present => 'p',
    }
}

fn state_of(ram: &Ram) -> char {
    match ram.get_execution_status() {
        Reply::Value(Value::State(ShownState::Uninit)) => 'U',
        Reply::Value(Value::State(ShownState::Stopped)) => 'S',
        Reply::Value(Value::State(ShownState::Running)) => 'R',
        Reply::Value(Value::State(ShownState::Suspended)) => 'P',
        _ => '?',
    }
}

#[test]
fn each_service_in_each_state(rt: HostRuntime) -> Result<(), Fail> {
    for (row, (service, replies, states)) in ROWS.iter().enumerate() {
        for state in 0..4 {
            let mut ram = example(rt.alloc())?;
            go_to(&mut ram, state);
            let mut board = board(rt.alloc())?;
            let reply = call(&mut ram, &mut board, row);
            assert_eq!(rt; mark_of(reply), replies[state], "{service}");
            assert_eq!(rt; state_of(&ram), states[state], "{service}");
        }
    }
    Ok(())
}
