use super::*;
use crate::line_text::push_line;
use crate::token::number_of;
use arrayvec::ArrayVec;
use mt_port::Shape;
use mt_window::{AlgorithmName, Detail, Entry, Refusal, Reply, ShownState, TestResult, Value};
use mt_word::Width;

/// Lines that are refused where there are 10 words of 8 bits and no flash: the number of the rule, the place of the
/// token, and the line.
const REFUSED: &str = "1 1 Foo
1 1 RAM Init
1 4 ram
1 5 ram Foo
1 5 ram init
1 5 ram MainFunction
1 5 fls Stop
1 10 ram Init # x
1 19 ram RunPartialTest
1 21 ram SelectAlgParams ]
2 20 ram RunPartialTest x
2 20 ram RunPartialTest #x
2 21 ram SelectAlgParams 01
2 21 ram SelectAlgParams +1
2 21 ram SelectAlgParams 4294967296
1 5 tick
1 6 tick foo
1 6 tick ram@1
1 6 tick ram!1
1 6 heal now
1 1 ;# x
1 1 [
1 1 ] tick ram
1 4 app
1 5 app x
1 6 app r
1 7 app r [
1 9 app r 1 2
1 8 app w 1
1 11 app copy 1
2 7 app r x
2 7 app r 00
2 7 app r ram
2 7 app r @5
2 7 app r !5
2 9 app w 0 g
2 9 app w 0 00000000000000000
3 7 app r 10
3 7 app r 4294967295
3 7 app w 10 100
3 12 app copy 0 10
3 7 app f 0
4 9 app w 0 100
4 9 app w 0 0000000000000100
4 11 app add 0 1ff
1 7 inject
1 8 inject foo
1 13 inject cfin sideways 0.0 1.0
1 23 inject cfid up 0.0 1.0
1 20 inject af-also 0 1 xor
2 11 inject sa 0 1
2 11 inject sa 0. 1
2 11 inject sa .0 1
2 11 inject sa 0.0.0 1
2 11 inject sa 00.0 1
2 11 inject sa 0.4294967296 1
2 15 inject sa 0.0 2
2 15 inject sa 0.0 up
2 13 inject cfst 2 0.0 1.0 1
3 11 inject sa 10.9 1
3 14 inject tf-up 10.0
3 16 inject af-none 10 00
3 21 inject af-instead 0 10
4 18 inject af-none 0 100
9 11 inject sa 0.8 1
9 11 inject sa 0.4294967295 1
9 16 inject tf-down 0.8
9 15 inject cfst 1 9.8 0.0 1
9 20 inject cfin up 2.0 2.1
9 20 inject cfin up 2.0 2.9
9 18 inject af-also 3 3 and
9 21 inject af-instead 3 3
1 5 burn
3 6 burn 0 00
1 5 flip
3 6 flip 0.0
1 10 ram Init @5
1 10 ram Init !5
1 19 ram GetTestResult @1
1 11 fls Abort @1
1 10 tick ram 5
1 10 tick ram []
2 10 tick ram @
2 10 tick ram @ 5
2 10 tick ram @x
2 10 tick ram @05
2 10 tick ram @1@2
2 10 tick ram @4294967296
2 10 tick ram !
2 10 tick ram ! 5
2 10 tick ram !x
2 10 tick ram !05
2 10 tick ram !@5
2 10 tick ram @!5
2 10 tick ram @1!2
2 10 tick ram !4294967296
5 13 tick ram @9 @5
5 13 tick ram @9 @5[x]
5 15 tick ram @2[] @1
5 16 tick ram @1 @9 @5
5 13 tick ram @9 !5
5 13 tick ram !9 @5
5 16 tick ram !1 @9 !5
6 58 tick ram @1 @1 @1 @1 @1 @1 @1 @1 @1 @1 @1 @1 @1 @1 @1 @1 @1
5 58 tick ram @1 @1 @1 @1 @1 @1 @1 @1 @1 @1 @1 @1 @1 @1 @1 @1 @0
2 58 tick ram @1 @1 @1 @1 @1 @1 @1 @1 @1 @1 @1 @1 @1 @1 @1 @1 @x
6 58 tick ram @1 !1 @1 !1 @1 !1 @1 !1 @1 !1 @1 !1 @1 !1 @1 !1 !1
1 13 tick ram @5[
1 13 tick ram @5[;
1 13 tick ram !5[;
1 13 tick ram @5[x]
1 13 tick fls @1[app r 1]
1 14 tick ram @5[][]
1 16 tick ram @5[r 3
1 17 tick ram @5[r 3;
1 17 tick ram @5[r 3;]
1 17 tick ram @5[r 3 r 4]
1 17 tick ram @5[ram MainFunction]
1 17 tick ram @5[ram GetCurrentState]
2 39 tick ram @5[ram GetTestResultPerBlock x]
3 15 tick ram @1[r 10]
4 17 tick ram @1[w 0 100]
7 45 tick ram @1[r 0;r 0;r 0;r 0;r 0;r 0;r 0;r 0;r 0]
7 45 tick ram @1[r 0;r 0;r 0;r 0;r 0;r 0;r 0;r 0;fls Abort]
1 45 tick ram @1[r 0;r 0;r 0;r 0;r 0;r 0;r 0;r 0;x]
1 45 tick ram @1[r 0;r 0;r 0;r 0;r 0;r 0;r 0;r 0;]
8 17 tick ram @5[ram Init]
8 17 tick ram @5[ram SelectAlgParams x]
8 13 tick ram @5[fls Abort]
8 13 tick ram @5[fls Foo]
8 13 tick ram !5[fls Foo]
8 13 tick fls @5[ram Stop]
8 17 tick fls @5[fls StartFgnd 0]
8 20 fls StartFgnd 0 @1[ram Stop]
";

/// Lines where there are 10 words of 8 bits and 4 flash words, each with its canonical text.
const SPELLED: &str = "|
   |
# anything [;]|
  #x|
ram Init|ram Init
ram DeInit|ram DeInit
ram Stop|ram Stop
  ram   Allow  |ram Allow
ram Suspend|ram Suspend
ram Resume|ram Resume
ram GetExecutionStatus|ram GetExecutionStatus
ram GetTestResult|ram GetTestResult
ram GetTestResultPerBlock  4294967295|ram GetTestResultPerBlock 4294967295
ram GetAlgParams|ram GetAlgParams
ram GetTestAlgorithm|ram GetTestAlgorithm
ram GetNumberOfTestedCells|ram GetNumberOfTestedCells
ram SelectAlgParams 0|ram SelectAlgParams 0
ram ChangeNumberOfTestedCells 65536|ram ChangeNumberOfTestedCells 65536
ram RunFullTest|ram RunFullTest
ram RunPartialTest 10|ram RunPartialTest 10
ram GetVersionInfo|ram GetVersionInfo
fls Init|fls Init
fls DeInit|fls DeInit
fls StartFgnd 7|fls StartFgnd 7
fls Abort|fls Abort
fls Suspend|fls Suspend
fls Resume|fls Resume
fls GetCurrentState|fls GetCurrentState
fls GetTestResultBgnd|fls GetTestResultBgnd
fls GetTestResultFgnd|fls GetTestResultFgnd
fls GetErrorDetails|fls GetErrorDetails
fls GetVersionInfo|fls GetVersionInfo
tick ram|tick ram
tick fls|tick fls
app r 9|app r 9
app w 0 AB|app w 0 ab
app w 0 0000000000000001|app w 0 01
app add 3 f|app add 3 0f
app copy 2 2|app copy 2 2
app f 3|app f 3
inject sa 9.7 0|inject sa 9.7 0
inject tf-up 0.0|inject tf-up 0.0
inject tf-down 1.2|inject tf-down 1.2
inject cfin up 0.0 1.0|inject cfin up 0.0 1.0
inject cfin down 1.7 0.0|inject cfin down 1.7 0.0
inject cfid up 0.0 3.0 1|inject cfid up 0.0 3.0 1
inject cfid down 9.0 8.1 0|inject cfid down 9.0 8.1 0
inject cfst 1 0.0 1.1 0|inject cfst 1 0.0 1.1 0
inject cfst 0 2.3 1.1 1|inject cfst 0 2.3 1.1 1
inject af-none 4 A5|inject af-none 4 a5
inject af-also 4 5 and|inject af-also 4 5 and
inject af-also 5 4 or|inject af-also 5 4 or
inject af-instead 0 9|inject af-instead 0 9
heal|heal
burn 0 fF|burn 0 ff
flip 3.7|flip 3.7
tick ram @0|tick ram @0
tick ram @5[]|tick ram @5
tick ram @9 @9|tick ram @9 @9
tick ram !0|tick ram !0
tick ram !5[]|tick ram !5
tick ram @9 !9 @9|tick ram @9 !9 @9
tick  ram @5 [ w 3 C4;r 3 ]@7[]|tick ram @5[w 3 c4; r 3] @7
tick  ram !5 [ w 3 C4;r 3 ]@7[]!7|tick ram !5[w 3 c4; r 3] @7 !7
tick ram @1[r 0]@2[r 1]|tick ram @1[r 0] @2[r 1]
tick fls @1[fls Abort;fls GetCurrentState]|tick fls @1[fls Abort; fls GetCurrentState]
tick fls @1[fls Suspend ; fls Resume]|tick fls @1[fls Suspend; fls Resume]
tick fls @1[fls GetTestResultBgnd]|tick fls @1[fls GetTestResultBgnd]
tick fls @1[fls GetTestResultFgnd]|tick fls @1[fls GetTestResultFgnd]
tick fls !1[fls GetTestResultFgnd]|tick fls !1[fls GetTestResultFgnd]
ram RunFullTest @0[ram Stop]|ram RunFullTest @0[ram Stop]
ram RunPartialTest 5 @1[ram GetTestResult]|ram RunPartialTest 5 @1[ram GetTestResult]
fls StartFgnd 1 @4294967295|fls StartFgnd 1 @4294967295
fls StartFgnd 1 !4294967295|fls StartFgnd 1 !4294967295
tick ram @1[add 1 2;copy 3 4;f 3]|tick ram @1[add 1 02; copy 3 4; f 3]
tick ram @1[ram Allow;ram Suspend;ram Resume;ram GetExecutionStatus;ram GetTestResultPerBlock 63]|tick ram @1[ram Allow; ram Suspend; ram Resume; ram GetExecutionStatus; ram GetTestResultPerBlock 63]
tick ram @1[r 0;r 1;r 2;r 3;r 4;r 5;r 6;r 7]|tick ram @1[r 0; r 1; r 2; r 3; r 4; r 5; r 6; r 7]
tick ram @1 @1 @1 @1 @1 @1 @1 @1 @1 @1 @1 @1 @1 @1 @1 @2|tick ram @1 @1 @1 @1 @1 @1 @1 @1 @1 @1 @1 @1 @1 @1 @1 @2
tick ram !1 !1 !1 !1 !1 !1 !1 !1 @1 @1 @1 @1 @1 @1 @1 !2|tick ram !1 !1 !1 !1 !1 !1 !1 !1 @1 @1 @1 @1 @1 @1 @1 !2
";

/// Entries of line 7 where words have 8 bits, with their trace lines.
const ENTERED: [(Entry, &[u8]); 27] = [
    (
        Entry::Served {
            number: 1,
            at: 48,
            wait: 43,
        },
        b"7 irq 1 at 48 wait 43\n",
    ),
    (
        Entry::Served {
            number: 16,
            at: 4294967295,
            wait: 0,
        },
        b"7 irq 16 at 4294967295 wait 0\n",
    ),
    (Entry::Inner(Reply::Done), b"7 - ok\n"),
    (Entry::Inner(Reply::Value(Value::Word(0xc4))), b"7 - c4\n"),
    (
        Entry::Inner(Reply::Value(Value::State(ShownState::Suspended))),
        b"7 - SUSPENDED\n",
    ),
    (Entry::Own(Reply::Done), b"7 ok\n"),
    (Entry::Own(Reply::Ran(0)), b"7 ran 0\n"),
    (Entry::Own(Reply::Ran(3072)), b"7 ran 3072\n"),
    (
        Entry::Own(Reply::Refused(Refusal::Uninit)),
        b"7 refused 1\n",
    ),
    (
        Entry::Own(Reply::Refused(Refusal::Status)),
        b"7 refused 2\n",
    ),
    (Entry::Own(Reply::Refused(Refusal::Range)), b"7 refused 3\n"),
    (Entry::Own(Reply::Present), b"7 present\n"),
    (Entry::Own(Reply::Value(Value::Word(5))), b"7 05\n"),
    (Entry::Own(Reply::Value(Value::Number(65536))), b"7 65536\n"),
    (
        Entry::Own(Reply::Value(Value::State(ShownState::Uninit))),
        b"7 UNINIT\n",
    ),
    (
        Entry::Own(Reply::Value(Value::State(ShownState::Aborted))),
        b"7 ABORTED\n",
    ),
    (
        Entry::Own(Reply::Value(Value::Result(TestResult::NotTested))),
        b"7 NOT_TESTED\n",
    ),
    (
        Entry::Own(Reply::Value(Value::Result(TestResult::Ok))),
        b"7 OK\n",
    ),
    (
        Entry::Own(Reply::Value(Value::Result(TestResult::NotOk))),
        b"7 NOT_OK\n",
    ),
    (
        Entry::Own(Reply::Value(Value::Result(TestResult::Undefined))),
        b"7 UNDEFINED\n",
    ),
    (
        Entry::Own(Reply::Value(Value::Algorithm(AlgorithmName::WalkPath))),
        b"7 walk-path\n",
    ),
    (
        Entry::Own(Reply::Value(Value::Algorithm(AlgorithmName::TransparentGalpat))),
        b"7 transparent-galpat\n",
    ),
    (
        Entry::Own(Reply::Value(Value::Interval {
            id: None,
            result: TestResult::NotTested,
        })),
        b"7 none NOT_TESTED\n",
    ),
    (
        Entry::Own(Reply::Value(Value::Interval {
            id: Some(2),
            result: TestResult::Ok,
        })),
        b"7 2 OK\n",
    ),
    (
        Entry::Own(Reply::Value(Value::Details(Detail::Nothing))),
        b"7 none\n",
    ),
    (
        Entry::Own(Reply::Value(Value::Details(Detail::Bgnd { block: 0, addr: 5 }))),
        b"7 bgnd 0 5\n",
    ),
    (Entry::Own(Reply::Value(Value::Version)), b"7 1.0.0\n"),
];

fn shape(width: Width, flash: u32) -> Shape {
    Shape {
        width,
        ram: 10,
        flash,
    }
}

fn is_refused(text: &[u8], shape: Shape, rule: u32, place: u32) -> bool {
    if text.len() > 1024 {
        return false;
    }
    match read_line(text, shape) {
        Ok(_) => false,
        Err(refusal) => u32::from(refusal.kind.number()) == rule && refusal.place == place,
    }
}

/// Whether the line of a row is refused as the row says.
fn is_refused_so(row: &str, shape: Shape) -> bool {
    let Some((rule, rest)) = row.split_once(' ') else {
        return false;
    };
    let Some((place, text)) = rest.split_once(' ') else {
        return false;
    };
    match (number_of(rule.as_bytes()), number_of(place.as_bytes())) {
        (Some(rule), Some(place)) => is_refused(text.as_bytes(), shape, rule, place),
        _ => false,
    }
}

/// Whether the text spells a line, whose canonical text is this one.
fn is_spelled(text: &[u8], shape: Shape, canonical: &[u8]) -> bool {
    if text.len() > 1024 {
        return false;
    }
    match read_line(text, shape) {
        Ok(line) => {
            let mut written = ArrayVec::new();
            push_line(&mut written, &line, shape.width);
            written.as_slice().strip_suffix(b"\n") == Some(canonical)
        }
        Err(_) => false,
    }
}

/// Whether the line of a row is written as the row says.
fn is_spelled_so(row: &str, shape: Shape) -> bool {
    match row.split_once('|') {
        Some((text, canonical)) => is_spelled(text.as_bytes(), shape, canonical.as_bytes()),
        None => false,
    }
}

#[test]
fn refused_lines(rt: HostRuntime) {
    let mut count = 0u32;
    for row in REFUSED.lines() {
        assert!(rt; is_refused_so(row, shape(Width::W8, 0)));
        count = count.wrapping_add(1);
    }
    assert_eq!(rt; count, 134);
    assert!(rt; is_refused(b"tick  ", shape(Width::W8, 0), 1, 7));
    assert!(rt; is_refused(b"burn 0 100", shape(Width::W8, 4), 4, 8));
    assert!(rt; is_refused(b"flip 0.8", shape(Width::W8, 4), 9, 6));
}

#[test]
fn spelled_lines(rt: HostRuntime) {
    let mut count = 0u32;
    for row in SPELLED.lines() {
        assert!(rt; is_spelled_so(row, shape(Width::W8, 4)));
        count = count.wrapping_add(1);
    }
    assert_eq!(rt; count, 79);
    assert!(rt; is_spelled(b"app w 0 C4", shape(Width::W16, 0), b"app w 0 00c4"));
    assert!(rt;
        is_spelled(
            b"app w 0 DeadBeef",
            shape(Width::W32, 0),
            b"app w 0 deadbeef"
        )
    );
}

#[test]
fn trace_lines(rt: HostRuntime) {
    for (entry, text) in ENTERED {
        assert!(rt; entry_text(7, &entry, Width::W8).as_slice() == text);
    }
    let word = Entry::Own(Reply::Value(Value::Word(0x62)));
    assert!(rt; entry_text(200, &word, Width::W32).as_slice() == b"200 00000062\n".as_slice());
}
