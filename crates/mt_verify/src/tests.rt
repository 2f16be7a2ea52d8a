// Texts against first other lines that were worked out by hand.

use crate::{Tally, common, first_other};

#[test]
fn common_prefixes(rt: HostRuntime) {
    let table: [(&[u8], &[u8], u32); 8] = [
        (b"", b"", 0),
        (b"", b"a", 0),
        (b"a", b"", 0),
        (b"abc", b"abc", 3),
        (b"abc", b"abd", 2),
        (b"abc", b"ab", 2),
        (b"ab", b"abc", 2),
        (b"a\nb\n", b"a\r\nb\n", 1),
    ];
    for (expected, given, length) in table {
        if expected.len() < 10 {
            assert_eq!(rt; common(expected, given), length);
        }
    }
}

#[test]
fn first_other_lines(rt: HostRuntime) {
    let table: [(&[u8], Option<u32>); 16] = [
        (b"1 a\n2 b\n3 c\n", None),
        (b"1 a\n2 b\n3 c", None),
        (b"1 a\n2 b\n3 d\n", Some(3)),
        (b"1 a\n2 b\n3 cc\n", Some(3)),
        (b"1 a\n2 b\n3 \n", Some(3)),
        (b"1 a\n2 b\n3 c\n\n", Some(4)),
        (b"1 a\n2 b\n3 c\nx", Some(4)),
        (b"1 a\n2 b\n", Some(3)),
        (b"1 a\n2 b", Some(3)),
        (b"1 a\n2 ", Some(2)),
        (b"1 a\n\n2 b\n3 c\n", Some(2)),
        (b"1 a\r\n2 b\n3 c\n", Some(1)),
        (b"1 a2 b\n3 c\n", Some(1)),
        (b"2 a\n2 b\n3 c\n", Some(1)),
        (b"\n", Some(1)),
        (b"", Some(1)),
    ];
    for (given, line) in table {
        assert_eq!(rt; first_other(b"1 a\n2 b\n3 c\n", given), line);
    }
}

#[test]
fn pieces_add_up(rt: HostRuntime) {
    let mut tally = Tally::new();
    tally.take(b"1 a\n2");
    tally.take(b"");
    assert_eq!(rt; tally.other_line(), 2);
    tally.take(b" b\n\n");
    assert_eq!(rt; tally.other_line(), 4);
    assert_eq!(rt; tally.ended_line(b'\n'), 5);
    assert_eq!(rt; tally.ended_line(b'3'), 4);
    assert!(rt; tally != Tally::new());
}
