//! One flash sequence: words compared with their copies.

ghost use Rattle.std.specs.Prelude.{◌≡◌, ◌==◌, ◌<◌, ◌≤◌, ◌+◌, ◌^◌, not, [], ◌∷◌, true, false, slice_index};
ghost use Rattle.mt_port.specs.Board.{Logs};
ghost use Rattle.mt_seq.specs.Compare.{comparison, compare_touches, compare_hold};

use mt_port::{Port, Touch};

// Reads a word and then its copy, and answers whether they differ.
fn differs<P: Port>(port: &mut P, addr: u32, copy: u32) -> bool
    requires held { (P.state port.old).held ≡ true }
    requires word { addr < (P.state port.old).shape.flash }
    requires inside { copy < (P.state port.old).shape.flash }
    requires room { (P.state port.old).count + 2 < 2 ^ 32 }
    ensures answer { result
        ≡ not (slice_index (P.state port.old).flash addr == slice_index (P.state port.old).flash copy) }
    ensures state { P.state port.new ≡ record (P.state port.old) { count = (P.state port.old).count + 2 } }
    ensures tape { Logs (P.tape port.old) (P.tape port.new) (Touch.Flash addr ∷ Touch.Flash copy ∷ []) }
{
    let word = port.flash_read(addr);
    let copied = port.flash_read(copy);
    word != copied
}

// Compares each word with its copy.
fn compare<P: Port>(port: &mut P, first: u32, copy: u32, n: u8) -> Option<u32>
    requires held { (P.state port.old).held ≡ true }
    requires word { first + n ≤ (P.state port.old).shape.flash }
    requires inside { copy + n ≤ (P.state port.old).shape.flash }
    requires room { (P.state port.old).count + compare_hold n < 2 ^ 32 }
    ensures address { result ≡ comparison (P.state port.old).flash first copy n }
    ensures state { P.state port.new ≡ record (P.state port.old) { count = (P.state port.old).count + compare_hold n } }
    ensures tape { Logs (P.tape port.old) (P.tape port.new) (compare_touches first copy n) }
{
    let mut found = None;
    for cell in 0..n {
        let addr = first + u32::from(cell);
        let differ = differs(port, addr, copy + u32::from(cell));
        found = found.or(differ.then_some(addr));
    }
    found
}

/// Makes one flash sequence, under one hold of interrupts: for each of n words in rising order a read of the word, and then of
/// its copy. All reads are made, whatever they answer. The answer is the address of the first word that differs.
pub fn run_compare<P: Port>(port: &mut P, first: u32, copy: u32, n: u8) -> Option<u32>
    requires free { (P.state port.old).held ≡ false }
    requires some { 1 ≤ n }
    requires small { n ≤ 64 }
    requires word { first + n ≤ (P.state port.old).shape.flash }
    requires copy { copy + n ≤ (P.state port.old).shape.flash }
    requires room { (P.state port.old).count + compare_hold n < 2 ^ 32 }
    ensures address { result ≡ comparison (P.state port.old).flash first copy n }
    ensures state { P.state port.new ≡ record (P.state port.old) {
      count = (P.state port.old).count + compare_hold n;
      since = (P.state port.old).count;
    } }
    ensures tape { Logs (P.tape port.old) (P.tape port.new) (compare_touches first copy n) }
{
    port.hold();
    let found = compare(port, first, copy, n);
    port.release();
    found
}

#[cfg(test)]
mod tests {
    use super::*;
    use mt_port::{PlainBoard, Shape};
    use mt_word::Width;
    use std::test::Fail;

    #[test]
    #[tactic(auto, unfolding(mt_port::specs::Board::powered_up, crate::specs::Compare::compare_hold))]
    fn words_that_equal_their_copies(rt: HostRuntime) -> Result<(), Fail> {
        let shape = Shape {
            width: Width::W8,
            ram: 1,
            flash: 8,
        };
        let mut board = PlainBoard::new(rt.alloc(), shape, 0).ok().ok_or("memory")?;
        let found = run_compare(&mut board, 1, 5, 2);
        assert_eq!(rt; found, None);
        assert_eq!(rt; board.made(), 4);
        let want = [
            Touch::Flash { addr: 1 },
            Touch::Flash { addr: 5 },
            Touch::Flash { addr: 2 },
            Touch::Flash { addr: 6 },
        ];
        assert_eq!(rt; board.tape().ok_or("told")?, want.as_slice());
        Ok(())
    }
}
