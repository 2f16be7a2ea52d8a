// Each call on its happy path and at the edges of each width, against values that were worked out by hand.

use crate::{Width, Words, bit, bits, fits, flip, with_bit, wrapping_sum};
use std::test::Fail;

#[test]
fn edges_of_each_width(rt: HostRuntime) {
    let most = [
        (Width::W8, 8, 0xff),
        (Width::W16, 16, 0xffff),
        (Width::W32, 32, 0xffff_ffff),
        (Width::W64, 64, 0xffff_ffff_ffff_ffff),
    ];
    for (width, count, last) in most {
        assert_eq!(rt; bits(width), count);
        assert!(rt; fits(width, last) && fits(width, 0));
        assert_eq!(rt; flip(width, 0), last);
        assert_eq!(rt; flip(width, last), 0);
        assert_eq!(rt; wrapping_sum(width, last, 1), 0);
    }
    assert!(rt; !fits(Width::W8, 0x100));
    assert!(rt; !fits(Width::W16, 0x1_0000));
    assert!(rt; !fits(Width::W32, 0x1_0000_0000));
}

#[test]
fn bits_of_a_word(rt: HostRuntime) {
    assert!(rt; bit(0x8000_0000_0000_0000, 63) && !bit(0x8000_0000_0000_0000, 62));
    assert_eq!(rt; with_bit(Width::W8, 0x0f, 7, true), 0x8f);
    assert_eq!(rt; with_bit(Width::W16, 0xffff, 8, false), 0xfeff);
    assert_eq!(rt; with_bit(Width::W32, 0, 31, true), 0x8000_0000);
    assert_eq!(rt; with_bit(Width::W64, 0, 63, true), 0x8000_0000_0000_0000);
}

#[test]
fn packed_words_keep_apart(rt: HostRuntime) -> Result<(), Fail> {
    let words = [
        (Width::W8, 0xa5, 0x5a),
        (Width::W16, 0xa5a5, 0x1234),
        (Width::W32, 0xa5a5_a5a5, 0x1234_5678),
        (Width::W64, 0xa5a5_a5a5_a5a5_a5a5, 0x1234_5678_9abc_def0),
    ];
    for (width, first, word) in words {
        assert!(rt; fits(width, first) && fits(width, word));
        let mut packed = Words::filled(rt.alloc(), width, 3, first)
            .ok()
            .ok_or("memory")?;
        packed.set(1, word);
        assert!(rt; packed.width() == width && packed.len() == 3);
        assert_eq!(rt;
            [packed.get(0), packed.get(1), packed.get(2)],
            [first, word, first]
        );
    }
    Ok(())
}
