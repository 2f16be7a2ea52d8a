use super::*;
use arrayvec::ArrayVec;
use mt_word::Width;

#[test]
fn words_are_read(rt: HostRuntime) {
    assert_eq!(rt; hex_of(b"0aF"), Some(175));
    assert_eq!(rt; hex_of(b""), None);
    assert_eq!(rt; hex_of(b"fffffffffffffffff"), None);
    assert_eq!(rt; word_of(Width::W8, b"fF"), Some(255));
    assert_eq!(rt; word_of(Width::W8, b"0ff"), None);
    assert_eq!(rt; word_of(Width::W8, b"0g"), None);
    assert_eq!(rt;
        word_of(Width::W64, b"FEDCBA9876543210"),
        Some(0xfedc_ba98_7654_3210)
    );
}

#[test]
fn words_are_written(rt: HostRuntime) {
    let mut out: ArrayVec<u8, 40> = ArrayVec::new();
    push_bytes(&mut out, b"<");
    push_number(&mut out, 4_294_967_295);
    push_word(&mut out, Width::W16, 0xaf);
    assert_eq!(rt; out.as_slice(), b"<429496729500af".as_slice());
}
