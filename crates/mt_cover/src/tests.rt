use super::*;
use mt_fault::{Fault, Spot};
use mt_march::{march_c_minus, mats_plus, read_march};
use mt_plan::Algorithm;

/// The row of an algorithm in the table.
fn row(algorithm: &Algorithm) -> [bool; 6] {
    [
        covers(algorithm, Class::StuckAt),
        covers(algorithm, Class::Transition),
        covers(algorithm, Class::Invert),
        covers(algorithm, Class::Force),
        covers(algorithm, Class::State),
        covers(algorithm, Class::Decoder),
    ]
}

/// The march of a text.
fn march(text: &str) -> Option<Algorithm> {
    let bytes = text.as_bytes();
    if bytes.len() > 65536 {
        return None;
    }
    match read_march(bytes) {
        Ok(march) => Some(Algorithm::March(march)),
        Err(_) => None,
    }
}

#[test]
fn table_by_hand(rt: HostRuntime) {
    let stuck_at = [true, false, false, false, false, false];
    let all = [true, true, true, true, true, true];
    let walk = [true, true, true, false, false, true];
    let transparent = [true, true, true, false, false, false];
    assert_eq!(rt; row(&Algorithm::Checkerboard), stuck_at);
    assert_eq!(rt; row(&Algorithm::March(march_c_minus())), all);
    assert_eq!(rt; row(&Algorithm::March(mats_plus())), stuck_at);
    assert_eq!(rt; row(&Algorithm::WalkPath), walk);
    assert_eq!(rt; row(&Algorithm::Galpat), walk);
    assert_eq!(rt; row(&Algorithm::TransparentGalpat), transparent);
    // March C- is known by its value, however it is written; with another order it is another march.
    let marches = [
        ("{ *(w0);u(r0,w1);u(r1,w0);d(r0,w1);d(r1,w0);*(r0) }", true),
        ("{u(w0);u(r0,w1);u(r1,w0);d(r0,w1);d(r1,w0);*(r0)}", false),
        ("{*(w0);u(r0,w1);u(r1,w0);d(r0,w1);d(r1,w0)}", false),
        (
            "{*(w0);u(r0,w1);u(r1,w0);d(r0,w1);d(r1,w0);*(r0,r0)}",
            false,
        ),
    ];
    for (text, known) in marches {
        match march(text) {
            Some(algorithm) => assert_eq!(rt; covers(&algorithm, Class::State), known, "{text}"),
            None => assert!(rt; false, "{text}"),
        }
    }
}

#[test]
fn classes_by_hand(rt: HostRuntime) {
    let agg = Spot { word: 1, bit: 0 };
    let vic = Spot { word: 2, bit: 7 };
    let table = [
        (Fault::StuckAt { vic, value: true }, Class::StuckAt),
        (Fault::CannotRise { vic }, Class::Transition),
        (Fault::CannotFall { vic }, Class::Transition),
        (
            Fault::Invert {
                agg,
                rise: true,
                vic,
            },
            Class::Invert,
        ),
        (
            Fault::Force {
                agg,
                rise: false,
                vic,
                value: true,
            },
            Class::Force,
        ),
        (
            Fault::State {
                agg,
                holds: true,
                vic,
                value: false,
            },
            Class::State,
        ),
        (Fault::NoCell { addr: 1, seen: 0 }, Class::Decoder),
        (
            Fault::Also {
                addr: 1,
                other: 2,
                wired_and: true,
            },
            Class::Decoder,
        ),
        (Fault::Instead { addr: 1, other: 2 }, Class::Decoder),
    ];
    for (fault, class) in table {
        assert_eq!(rt; class_of(&fault), class);
    }
}
