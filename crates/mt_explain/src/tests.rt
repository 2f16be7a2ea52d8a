// Explanations that were worked out by hand.

use crate::{Book, Input, Rule, explain, report, row_of};
use mt_replay::Status;
use std::test::Fail;

const JOB: &[u8] =
    b"version = 1\nwidth = 8\nram = 10\n[[set]]\nalgorithm = \"march\"\natomic = 4\ncells = 8\n\
    [[set.block]]\nfirst = 0\nlast = 9\npolicy = \"non-destructive\"\n=====\nram Init\napp r 10\n";

#[test]
fn a_refused_line(rt: HostRuntime) -> Result<(), Fail> {
    let alloc = rt.alloc();
    let explanation = explain(alloc, Input::Job, JOB).ok().ok_or("memory")?;
    let status = Status::BadScript {
        line: 2,
        code: 3,
        place: 7,
    };
    assert_eq!(rt; explanation.status, status);
    let text = report(alloc, "a.job", &explanation)?;
    let wanted =
        "error: an address is not below the number of words  (line rule 3)\n  --> a.job:14:7\n   |\n14 | app r 10\n   |       ^^ `10` is beyond the last address\n  = help: write an address in decimal digits without a leading zero, below 10\n";
    assert_eq!(rt; text.as_str(), wanted);
    Ok(())
}

#[test]
fn an_accepted_job(rt: HostRuntime) -> Result<(), Fail> {
    let alloc = rt.alloc();
    let accepted = &JOB[..JOB.len() - 9];
    let explanation = explain(alloc, Input::Job, accepted).ok().ok_or("memory")?;
    assert_eq!(rt; explanation.status, Status::Done);
    let text = report(alloc, "a.job", &explanation)?;
    assert_eq!(rt; text.as_str(), "a.job is not refused\n");
    Ok(())
}

#[test]
fn rows(rt: HostRuntime) {
    let rule = Rule {
        book: Book::March,
        number: 5,
    };
    assert_eq!(rt;
        row_of(rule).map(|row| row.sentence),
        Some("no read expects 0, or none expects 1")
    );
    let none = Rule {
        book: Book::March,
        number: 6,
    };
    assert!(rt; row_of(none).is_none());
}
