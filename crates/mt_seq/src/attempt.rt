//! A sequence that may be dropped where an urgent request falls due.

ghost use Rattle.std.specs.Prelude.{◌≡◌, ◌<◌, ◌≤◌, ◌+◌, ◌-◌, ◌^◌, [], IfSome, None, true, false, length, All, map, find, slice_index};
ghost use Rattle.std.specs.List.{range_with_len};
ghost use Rattle.mt_word.specs.Word.{Fits};
ghost use Rattle.mt_fault.specs.Items.{Store, passes};
ghost use Rattle.mt_fault.specs.Projection.{cells_of_fault};
ghost use Rattle.mt_plan.specs.Lists.{cells};
ghost use Rattle.mt_plan.specs.Plan.{IsAccepted, steps_of};
ghost use Rattle.mt_port.specs.Board.{Logs, is_due};
ghost use Rattle.mt_port.specs.Tape.{is_over};
ghost use Rattle.mt_seq.specs.Attempts.{attempt_length, attempt_touches, attempt_verdict, attempt_words, backed_out, dropped_at, part_length};
ghost use Rattle.mt_seq.specs.Laws.{left_words};
ghost use Rattle.mt_seq.specs.Makes.{Makes};
ghost use Rattle.mt_seq.specs.Sequence.{sequence, sequence_hold, sequence_touches, sequence_verdict, sequence_words, IsSoundJob, IsSoundSlice};
ghost use Rattle.mt_seq.specs.Stepping.{job_of};

use crate::access::Access;
use crate::course::Course;
use crate::own::make_own;
use crate::sequence::{Frame, Job, Slice, Verdict, verdict_from};
use arrayvec::ArrayVec;
use mt_plan::{Algorithm, Policy, hold_of, steps};
use mt_port::Port;

/// The first moment after the first access, and before the writes that end a sequence on n cells, at which an offset is reached.
fn first_moment(offset: Option<u32>, count: u32, alg: &Algorithm, n: u8) -> Option<u32>
    requires accepted { IsAccepted alg.now }
    requires some { 1 ≤ n }
    requires small { n ≤ 64 }
    ensures { result ≡ find (λ i. is_due (count + i) offset)
        (range_with_len 1 (n + length (steps_of alg.now n) - 1)) }
{
    let moment = match offset {
        Some(offset) => offset.saturating_sub(count).max(1),
        None => return None,
    };
    let end = u32::from(n) + steps(alg, u32::from(n));
    if moment < end { Some(moment) } else { None }
}

/// After how many accesses an attempt is dropped.
fn dropped_at<P: Port>(
    port: &P,
    alg: &Algorithm,
    frame: Frame,
    slice: Slice,
    may: bool,
) -> Option<u32>
    requires accepted { IsAccepted alg.now }
    requires some { 1 ≤ slice.n }
    requires small { slice.n ≤ 64 }
    ensures { result ≡ dropped_at may (P.state port.now) (job_of alg.now frame) slice }
{
    match frame.policy {
        Policy::NonDestructive => if may {
            first_moment(port.next_urgent(), port.made(), alg, slice.n)
        } else {
            None
        },
        Policy::Destructive => None,
    }
}

/// Writes each saved word back.
pub(crate) fn restore<P: Port>(port: &mut P, slice: Slice, saved: &[u64])
    requires held { (P.state port.old).held ≡ true }
    requires inside { slice.first + slice.n ≤ (P.state port.old).shape.ram }
    requires all { length saved.now ≡ slice.n }
    requires fit { All (Fits (P.state port.old).shape.width) saved.now }
    requires room { (P.state port.old).count + slice.n < 2 ^ 32 }
    ensures { Makes (map (λ cell. Store (slice.first + cell) (slice_index saved.now cell)) (cells slice.n))
        (P.state port.old) (P.state port.new) (P.tape port.old) (P.tape port.new) true }
{
    for cell in 0..slice.n {
        let access = Access::Store {
            addr: slice.first + u32::from(cell),
            word: saved[cell as usize],
        };
        let _ = access.make(port);
    }
}

/// All accesses of the sequence, one after another.
fn make_each<P: Port>(port: &mut P, alg: &Algorithm, frame: Frame, slice: Slice) -> bool
    requires held { (P.state port.old).held ≡ true }
    requires job { IsSoundJob (P.state port.old).shape.width (job_of alg.now frame) }
    requires slice { IsSoundSlice (P.state port.old).shape.ram slice }
    requires room { (P.state port.old).count + sequence_hold (job_of alg.now frame) slice.n < 2 ^ 32 }
    ensures { Makes (sequence (P.state port.old) (job_of alg.now frame) slice)
        (P.state port.old) (P.state port.new) (P.tape port.old) (P.tape port.new) result }
{
    let mut course = Course::new(alg, frame, slice);
    let hold = hold_of(alg, frame.policy, u32::from(slice.n));
    course.run(port, alg, frame, hold);
    !course.differs()
}

/// A sequence that keeps the words, of which the accesses of the fault's cells alone are made, and all are counted.
fn make_decided<P: Port>(
    port: &mut P,
    alg: &Algorithm,
    frame: Frame,
    slice: Slice,
    cells: &[u8],
) -> bool
    requires held { (P.state port.old).held ≡ true }
    requires job { IsSoundJob (P.state port.old).shape.width (job_of alg.now frame) }
    requires slice { IsSoundSlice (P.state port.old).shape.ram slice }
    requires keeps { frame.policy ≡ Policy.NonDestructive }
    requires cells { cells.now ≡ cells_of_fault (P.state port.old).fault slice.first slice.n }
    requires few { length cells.now ≤ 2 }
    requires over { is_over P.keeps (P.tape port.old) (sequence_hold (job_of alg.now frame) slice.n) ≡ true }
    requires room { (P.state port.old).count + sequence_hold (job_of alg.now frame) slice.n < 2 ^ 32 }
    ensures { Makes (sequence (P.state port.old) (job_of alg.now frame) slice)
        (P.state port.old) (P.state port.new) (P.tape port.old) (P.tape port.new) result }
{
    let end = port.made() + hold_of(alg, frame.policy, u32::from(slice.n));
    let good = make_own(port, alg, frame, slice, cells);
    port.count_up_to(end);
    good
}

/// A test that keeps the words of a slice which the fault spares: no access is made, and all are counted.
fn count_whole<P: Port>(port: &mut P, _alg: &Algorithm, _frame: Frame, slice: Slice, hold: u32)
    requires held { (P.state port.old).held ≡ true }
    requires job { IsSoundJob (P.state port.old).shape.width (job_of _alg.now _frame) }
    requires slice { IsSoundSlice (P.state port.old).shape.ram slice }
    requires keeps { _frame.policy ≡ Policy.NonDestructive }
    requires hold { hold ≡ sequence_hold (job_of _alg.now _frame) slice.n }
    requires spared { cells_of_fault (P.state port.old).fault slice.first slice.n ≡ [] }
    requires over { is_over P.keeps (P.tape port.old) hold ≡ true }
    requires room { (P.state port.old).count + hold < 2 ^ 32 }
    ensures { Makes (sequence (P.state port.old) (job_of _alg.now _frame) slice)
        (P.state port.old) (P.state port.new) (P.tape port.old) (P.tape port.new) true }
{
    let end = port.made() + hold;
    port.count_up_to(end);
}

/// A test that keeps the words: if the port says which cells decide it, the accesses of these alone.
fn make_keeping<P: Port>(port: &mut P, alg: &Algorithm, frame: Frame, slice: Slice) -> bool
    requires held { (P.state port.old).held ≡ true }
    requires job { IsSoundJob (P.state port.old).shape.width (job_of alg.now frame) }
    requires slice { IsSoundSlice (P.state port.old).shape.ram slice }
    requires keeps { frame.policy ≡ Policy.NonDestructive }
    requires room { (P.state port.old).count + sequence_hold (job_of alg.now frame) slice.n < 2 ^ 32 }
    ensures { Makes (sequence (P.state port.old) (job_of alg.now frame) slice)
        (P.state port.old) (P.state port.new) (P.tape port.old) (P.tape port.new) result }
{
    let hold = hold_of(alg, frame.policy, u32::from(slice.n));
    match port.cells_to_test(slice.first, slice.n, hold) {
        Some(cells) if cells.is_empty() => {
            count_whole(port, alg, frame, slice, hold);
            true
        }
        Some(cells) => make_decided(port, alg, frame, slice, cells.as_slice()),
        None => make_each(port, alg, frame, slice),
    }
}

/// Writes one word into each cell.
fn fill<P: Port>(port: &mut P, slice: Slice, word: u64)
    requires held { (P.state port.old).held ≡ true }
    requires inside { slice.first + slice.n ≤ (P.state port.old).shape.ram }
    requires fits { Fits (P.state port.old).shape.width word }
    requires room { (P.state port.old).count + slice.n < 2 ^ 32 }
    ensures { Makes (map (λ cell. Store (slice.first + cell) word) (cells slice.n))
        (P.state port.old) (P.state port.new) (P.tape port.old) (P.tape port.new) true }
{
    for cell in 0..slice.n {
        let access = Access::Store {
            addr: slice.first + u32::from(cell),
            word,
        };
        let _ = access.make(port);
    }
}

/// A test that fills a slice which the fault spares: the writes of the fill alone are made, and all accesses are counted.
fn make_fill<P: Port>(port: &mut P, alg: &Algorithm, frame: Frame, slice: Slice)
    requires held { (P.state port.old).held ≡ true }
    requires job { IsSoundJob (P.state port.old).shape.width (job_of alg.now frame) }
    requires slice { IsSoundSlice (P.state port.old).shape.ram slice }
    requires fills { frame.policy ≡ Policy.Destructive }
    requires spared { cells_of_fault (P.state port.old).fault slice.first slice.n ≡ [] }
    requires over { is_over P.keeps (P.tape port.old) (sequence_hold (job_of alg.now frame) slice.n) ≡ true }
    requires room { (P.state port.old).count + sequence_hold (job_of alg.now frame) slice.n < 2 ^ 32 }
    ensures { Makes (sequence (P.state port.old) (job_of alg.now frame) slice)
        (P.state port.old) (P.state port.new) (P.tape port.old) (P.tape port.new) true }
{
    let end = port.made() + hold_of(alg, frame.policy, u32::from(slice.n));
    fill(port, slice, frame.fill);
    port.count_up_to(end);
}

/// A test that fills the slice.
fn make_filling<P: Port>(port: &mut P, alg: &Algorithm, frame: Frame, slice: Slice) -> bool
    requires held { (P.state port.old).held ≡ true }
    requires job { IsSoundJob (P.state port.old).shape.width (job_of alg.now frame) }
    requires slice { IsSoundSlice (P.state port.old).shape.ram slice }
    requires fills { frame.policy ≡ Policy.Destructive }
    requires room { (P.state port.old).count + sequence_hold (job_of alg.now frame) slice.n < 2 ^ 32 }
    ensures { Makes (sequence (P.state port.old) (job_of alg.now frame) slice)
        (P.state port.old) (P.state port.new) (P.tape port.old) (P.tape port.new) result }
{
    let hold = hold_of(alg, frame.policy, u32::from(slice.n));
    match port.cells_to_test(slice.first, slice.n, hold) {
        Some(cells) if cells.is_empty() => {
            make_fill(port, alg, frame, slice);
            true
        }
        _ => make_each(port, alg, frame, slice),
    }
}

/// All accesses of the sequence.
fn make_whole<P: Port>(port: &mut P, alg: &Algorithm, frame: Frame, slice: Slice) -> bool
    requires held { (P.state port.old).held ≡ true }
    requires job { IsSoundJob (P.state port.old).shape.width (job_of alg.now frame) }
    requires slice { IsSoundSlice (P.state port.old).shape.ram slice }
    requires room { (P.state port.old).count + sequence_hold (job_of alg.now frame) slice.n < 2 ^ 32 }
    ensures { Makes (sequence (P.state port.old) (job_of alg.now frame) slice)
        (P.state port.old) (P.state port.new) (P.tape port.old) (P.tape port.new) result }
{
    match frame.policy {
        Policy::NonDestructive => make_keeping(port, alg, frame, slice),
        Policy::Destructive => make_filling(port, alg, frame, slice),
    }
}

/// So many accesses of the sequence, and where the algorithm has begun, the writes of the saved words, one after another.
fn make_part_singly<P: Port>(port: &mut P, alg: &Algorithm, frame: Frame, slice: Slice, until: u32)
    requires held { (P.state port.old).held ≡ true }
    requires job { IsSoundJob (P.state port.old).shape.width (job_of alg.now frame) }
    requires slice { IsSoundSlice (P.state port.old).shape.ram slice }
    requires keeps { frame.policy ≡ Policy.NonDestructive }
    requires until { until < slice.n + length (steps_of alg.now slice.n) }
    requires room { (P.state port.old).count + sequence_hold (job_of alg.now frame) slice.n < 2 ^ 32 }
    ensures { Makes (backed_out (P.state port.old) (job_of alg.now frame) slice until) (P.state port.old)
        (P.state port.new) (P.tape port.old) (P.tape port.new)
        (passes (P.state port.old).fault (P.state port.old).words [] (backed_out (P.state port.old) (job_of alg.now frame) slice until)) }
{
    let mut course = Course::new(alg, frame, slice);
    course.run(port, alg, frame, until);
    if until > u32::from(slice.n) {
        restore(port, slice, course.saved());
    }
}

/// An attempt that is broken off on a slice which the fault spares: no access is made, and all are counted.
fn count_part<P: Port>(port: &mut P, _alg: &Algorithm, _frame: Frame, slice: Slice, until: u32)
    requires held { (P.state port.old).held ≡ true }
    requires job { IsSoundJob (P.state port.old).shape.width (job_of _alg.now _frame) }
    requires slice { IsSoundSlice (P.state port.old).shape.ram slice }
    requires keeps { _frame.policy ≡ Policy.NonDestructive }
    requires until { until < slice.n + length (steps_of _alg.now slice.n) }
    requires spared { cells_of_fault (P.state port.old).fault slice.first slice.n ≡ [] }
    requires over { is_over P.keeps (P.tape port.old) (part_length slice.n until) ≡ true }
    requires room { (P.state port.old).count + sequence_hold (job_of _alg.now _frame) slice.n < 2 ^ 32 }
    ensures { Makes (backed_out (P.state port.old) (job_of _alg.now _frame) slice until) (P.state port.old)
        (P.state port.new) (P.tape port.old) (P.tape port.new)
        (passes (P.state port.old).fault (P.state port.old).words [] (backed_out (P.state port.old) (job_of _alg.now _frame) slice until)) }
{
    let end = port.made() + part_length(slice, until);
    port.count_up_to(end);
}

/// How many accesses an attempt has that is broken off after so many.
fn part_length(slice: Slice, until: u32) -> u32
    requires { until < 2 ^ 31 }
    ensures { result ≡ part_length slice.n until }
{
    let n = u32::from(slice.n);
    if n < until { until + n } else { until }
}

/// The accesses of an attempt that is broken off after so many, with the writes that put the words back.
fn make_part<P: Port>(port: &mut P, alg: &Algorithm, frame: Frame, slice: Slice, until: u32)
    requires held { (P.state port.old).held ≡ true }
    requires job { IsSoundJob (P.state port.old).shape.width (job_of alg.now frame) }
    requires slice { IsSoundSlice (P.state port.old).shape.ram slice }
    requires keeps { frame.policy ≡ Policy.NonDestructive }
    requires until { until < slice.n + length (steps_of alg.now slice.n) }
    requires room { (P.state port.old).count + sequence_hold (job_of alg.now frame) slice.n < 2 ^ 32 }
    ensures { Makes (backed_out (P.state port.old) (job_of alg.now frame) slice until) (P.state port.old)
        (P.state port.new) (P.tape port.old) (P.tape port.new)
        (passes (P.state port.old).fault (P.state port.old).words [] (backed_out (P.state port.old) (job_of alg.now frame) slice until)) }
{
    match port.cells_to_test(slice.first, slice.n, part_length(slice, until)) {
        Some(cells) if cells.is_empty() => count_part(port, alg, frame, slice, until),
        _ => make_part_singly(port, alg, frame, slice, until),
    }
}

/// One attempt at a slice, under one hold of interrupts. Where it may be dropped it is, after the first access behind which an urgent
/// request is due, in a test that keeps the words, and before the writes that end it; what the algorithm wrote is then put back.
pub fn try_slice<P: Port>(
    port: &mut P,
    alg: &Algorithm,
    frame: Frame,
    slice: Slice,
    may: bool,
) -> Option<Verdict>
    requires free { (P.state port.old).held ≡ false }
    requires job { IsSoundJob (P.state port.old).shape.width (job_of alg.now frame) }
    requires slice { IsSoundSlice (P.state port.old).shape.ram slice }
    requires room { (P.state port.old).count + sequence_hold (job_of alg.now frame) slice.n < 2 ^ 32 }
    ensures verdict { result ≡ attempt_verdict may (P.state port.old) (job_of alg.now frame) slice }
    ensures state { P.state port.new ≡ record (P.state port.old) {
      words = attempt_words may (P.state port.old) (job_of alg.now frame) slice;
      count = (P.state port.old).count + attempt_length may (P.state port.old) (job_of alg.now frame) slice;
      since = (P.state port.old).count;
    } }
    ensures tape { Logs (P.tape port.old) (P.tape port.new)
        (attempt_touches may (P.state port.old) (job_of alg.now frame) slice) }
{
    match dropped_at(port, alg, frame, slice, may) {
        None => {
            port.hold();
            let pass = make_whole(port, alg, frame, slice);
            port.release();
            Some(verdict_from(pass))
        }
        Some(until) => {
            port.hold();
            make_part(port, alg, frame, slice, until);
            port.release();
            None
        }
    }
}

/// Makes one sequence on the slice, under one hold of interrupts: the saving reads of a test that keeps the words, the
/// algorithm's accesses, and the writes of the saved words or of the fill. All accesses are made, whatever they answer.
pub fn run_slice<P: Port>(port: &mut P, job: &Job, slice: Slice) -> Verdict
    requires free { (P.state port.old).held ≡ false }
    requires job { IsSoundJob (P.state port.old).shape.width job.now }
    requires slice { IsSoundSlice (P.state port.old).shape.ram slice }
    requires room { (P.state port.old).count + sequence_hold job.now slice.n < 2 ^ 32 }
    ensures verdict { result ≡ sequence_verdict (P.state port.old) job.now slice }
    ensures state { P.state port.new ≡ record (P.state port.old) {
      words = sequence_words (P.state port.old) job.now slice;
      count = (P.state port.old).count + sequence_hold job.now slice.n;
      since = (P.state port.old).count;
    } }
    ensures tape { Logs (P.tape port.old) (P.tape port.new) (sequence_touches (P.state port.old) job.now slice) }
    // On sound memory.
    ensures passes { (P.state port.old).fault ≡ None → result ≡ Verdict.Pass }
    ensures stays { (P.state port.old).fault ≡ None
        → (P.state port.new).words ≡ left_words (P.state port.old).words job.now.policy slice job.now.fill }
{
    port.hold();
    let pass = make_whole(port, &job.alg, job.frame(), slice);
    port.release();
    verdict_from(pass)
}

#[cfg(test)]
mod tests {
    use super::*;
    use mt_march::march_c_minus;
    use mt_port::{PlainBoard, Shape, Touch};
    use mt_word::Width;
    use std::test::Fail;

    #[test]
    #[tactic(auto, unfolding(mt_port::specs::Board::powered_up))]
    fn march_c_minus_on_one_word(rt: HostRuntime) -> Result<(), Fail> {
        let shape = Shape {
            width: Width::W8,
            ram: 10,
            flash: 0,
        };
        let mut board = PlainBoard::new(rt.alloc(), shape, 0).ok().ok_or("memory")?;
        let job = Job {
            alg: Algorithm::March(march_c_minus()),
            policy: Policy::NonDestructive,
            background: 0,
            fill: 0,
        };
        let verdict = run_slice(&mut board, &job, Slice { first: 9, n: 1 });
        assert_eq!(rt; verdict, Verdict::Pass);
        assert_eq!(rt; board.made(), 12);
        let addr = 9;
        let read = Touch::Read { addr };
        let zero = Touch::Write { addr, word: 0 };
        let one = Touch::Write { addr, word: 255 };
        let want = [
            read, zero, read, one, read, zero, read, one, read, zero, read, zero,
        ];
        assert_eq!(rt; board.tape().ok_or("told")?, want.as_slice());
        Ok(())
    }

    #[test]
    #[tactic(auto, unfolding(mt_port::specs::Board::powered_up))]
    fn an_attempt_without_requests_is_whole(rt: HostRuntime) -> Result<(), Fail> {
        let shape = Shape {
            width: Width::W8,
            ram: 10,
            flash: 0,
        };
        let mut board = PlainBoard::new(rt.alloc(), shape, 0).ok().ok_or("memory")?;
        let frame = Frame {
            policy: Policy::NonDestructive,
            background: 0,
            fill: 0,
        };
        let slice = Slice { first: 2, n: 3 };
        let verdict = try_slice(&mut board, &Algorithm::Checkerboard, frame, slice, true);
        assert_eq!(rt; verdict, Some(Verdict::Pass));
        assert_eq!(rt; board.made(), 18);
        Ok(())
    }
}
