ghost use Rattle.std.specs.Prelude.{◌≡◌, ◌≤◌};
ghost use Rattle.mt_plan.specs.Plan.{IsAccepted};
ghost use Rattle.mt_plan.specs.Cursor.{IsCursor, cells_of};

use super::*;

/// The step with an index on two cells.
fn step_on_two(algorithm: &Algorithm, i: u32) -> Option<Step>
    requires { IsAccepted algorithm.now }
{
    if i < steps(algorithm, 2) {
        Some(step_at(algorithm, 2, i))
    } else {
        None
    }
}

fn step(cell: u8, act: Act) -> Option<Step> {
    Some(Step { cell, act })
}

#[test]
fn steps_by_hand(rt: HostRuntime) {
    let checkerboard = [
        (0, Act::WritePlain),
        (1, Act::WriteFlipped),
        (0, Act::ReadPlain),
        (1, Act::ReadFlipped),
        (0, Act::WriteFlipped),
        (1, Act::WritePlain),
        (0, Act::ReadFlipped),
        (1, Act::ReadPlain),
    ];
    for (i, (cell, act)) in checkerboard.iter().enumerate() {
        assert_eq!(rt;
            step_on_two(&Algorithm::Checkerboard, i as u32),
            step(*cell, *act)
        );
    }
    assert_eq!(rt;
        step_on_two(&Algorithm::WalkPath, 3),
        step(1, Act::ReadPlain)
    );
    assert_eq!(rt;
        step_on_two(&Algorithm::WalkPath, 13),
        step(1, Act::ReadFlipped)
    );
    // Galpat at base 0 of two cells: the base, the other cell, and the base again.
    let galpat = [
        (0, Act::WriteFlipped),
        (0, Act::ReadFlipped),
        (1, Act::ReadPlain),
        (0, Act::ReadFlipped),
        (0, Act::WritePlain),
    ];
    for (i, (cell, act)) in galpat.iter().enumerate() {
        assert_eq!(rt;
            step_on_two(&Algorithm::Galpat.copy(), i as u32 + 2),
            step(*cell, *act)
        );
    }
    assert_eq!(rt;
        hold_of(&Algorithm::TransparentGalpat, Policy::NonDestructive, 64),
        16768
    );
    assert_eq!(rt; hold_of(&Algorithm::WalkPath, Policy::Destructive, 2), 22);
}

/// The next step of a cursor, where one is left.
fn next_of(cursor: &mut Steps, algorithm: &Algorithm, n: u32) -> Option<Step>
    requires cursor { IsCursor algorithm.now cursor.old }
    requires cells { cells_of cursor.old ≡ n }
    requires accepted { IsAccepted algorithm.now }
    requires small { n ≤ 64 }
    ensures cursor { IsCursor algorithm.now cursor.new }
    ensures cells { cells_of cursor.new ≡ n }
{
    if cursor.made() < steps(algorithm, n) {
        Some(cursor.next(algorithm))
    } else {
        None
    }
}

#[test]
fn cursor_by_hand(rt: HostRuntime) {
    let algorithm = Algorithm::Checkerboard;
    let mut cursor = Steps::new(&algorithm, 1);
    assert_eq!(rt;
        next_of(&mut cursor, &algorithm, 1),
        step(0, Act::WritePlain)
    );
    assert_eq!(rt;
        next_of(&mut cursor, &algorithm, 1),
        step(0, Act::ReadPlain)
    );
    assert_eq!(rt;
        next_of(&mut cursor, &algorithm, 1),
        step(0, Act::WriteFlipped)
    );
    assert_eq!(rt;
        next_of(&mut cursor, &algorithm, 1),
        step(0, Act::ReadFlipped)
    );
    assert_eq!(rt; next_of(&mut cursor, &algorithm, 1), None);
    assert_eq!(rt; cursor.made(), 4);
}
