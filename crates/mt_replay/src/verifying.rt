//! Reads a script that a trace follows.

ghost use Rattle.std.specs.Prelude.{◌≡◌, ◌≢◌, ◌≤◌, ◌<◌, ◌+◌, ◌++◌, ◌∷◌, ℕ, List, Option, None, [], Ok, Err, length, IfOk, IfErr, OnOk, OnErr};
ghost use Rattle.std.specs.Io.KnownBytes.{prepend_known};
ghost use Rattle.std.specs.Str.{bytes_eq};
ghost use Rattle.mt_port.specs.Causes.{HasCause};
ghost use Rattle.mt_port.specs.Streams.{WhereTold};
ghost use Rattle.mt_text.specs.Lines.{line_of};
ghost use Rattle.mt_replay.specs.Input.{Failed as SourceFailed, separator};
ghost use Rattle.mt_replay.specs.Verify.{Claim, script_limit, place_beyond, within, line_said, is_front, last_claimed};
ghost use Rattle.mt_replay.specs.Inner.Runs.{IsRefusal};
ghost use Rattle.mt_replay.specs.Inner.Locating.{EndCause, StopCause};
ghost use Rattle.mt_replay.specs.Inner.Verifying.{TakenGives, TextIs, TextBreaks, LastGives, WholeGives, NextGives, LineGives, KeptGives};

use crate::input::{Input, LineText, Piece};
use crate::job::Follows;
use crate::locating::Stop;
use crate::run::End;
use arrayvec::ArrayVec;
use mt_port::{Failed, Shape, Source};
use mt_text::Line;

/// A script that was kept: how many lines it has, and whether bytes may follow the separator behind it.
#[derive(Clone, Copy, Debug, PartialEq, Eq)]
pub(crate) struct Kept {
    pub lines: u32,
    pub follows: Follows,
}

/// The number of a line, and how many bytes of the script stand before it.
#[derive(Clone, Copy, Debug, PartialEq, Eq)]
pub(crate) struct Mark {
    number: u32,
    size: u32,
}

/// What came of reading the text of a line: it is whole; it is the last one, without a line feed; there is none; or it is
/// refused, whatever comes behind its bytes.
#[derive(Clone, Copy, Debug, PartialEq, Eq)]
pub(crate) enum Taken {
    Whole,
    Last,
    Missing,
    Refused(End),
}

/// Room for what is read of a line.
#[derive(Drop)]
pub(crate) struct Slip {
    text: LineText,
    line: Line,
}

const SCRIPT_LIMIT: u32 = 16_777_216;

const SEPARATOR: &[u8] = b"=====";

// Whether a line is the separator.
fn is_separator(text: &[u8]) -> bool
    ensures { result ≡ bytes_eq text.now separator }
{
    text == SEPARATOR
}

// Whether the bytes of a line may become the separator.
fn may_separate(text: &[u8]) -> bool
    ensures { result ≡ is_front text.now separator }
{
    text == &SEPARATOR[..text.len().min(5)]
}

// How a line is refused that has a byte too many for the script.
fn beyond_script(mark: Mark) -> End
    requires { mark.size ≤ script_limit }
    ensures { result ≡ End.Refused mark.number 16 (place_beyond mark.size) }
{
    End::Refused {
        line: mark.number,
        code: 16,
        place: SCRIPT_LIMIT - mark.size + 1,
    }
}

// Whether a line of at most 1,024 bytes is within the limits, where so many bytes of it count.
fn judge_size(mark: Mark, count: u32) -> Result<(), End>
    requires size { mark.size ≤ script_limit }
    requires count { count ≤ 1025 }
    ensures is { (text : List ℕ) → length text ≤ 1024 → within mark.number mark.size count text (Ok tt) ≡ result }
    ensures refusal { IfErr result IsRefusal }
    ensures number { OnOk result (mark.number ≤ 1000000) }
    ensures fits { OnOk result (mark.size + count ≤ script_limit) }
{
    if mark.number > 1_000_000 {
        return Err(End::Refused {
            line: mark.number,
            code: 11,
            place: 1,
        });
    }
    if mark.size + count > SCRIPT_LIMIT {
        return Err(beyond_script(mark));
    }
    Ok(())
}

// How a line of more bytes is refused.
fn too_long(mark: Mark) -> End
    requires { mark.size ≤ script_limit }
    ensures is { (text : List ℕ) → 1024 < length text → within {A = Claim} mark.number mark.size (length text) text (Err End.Broken) ≡ Err result }
    ensures refusal { IsRefusal result }
{
    if mark.number > 1_000_000 {
        return End::Refused {
            line: mark.number,
            code: 11,
            place: 1,
        };
    }
    if SCRIPT_LIMIT - mark.size < 1024 {
        return beyond_script(mark);
    }
    End::Refused {
        line: mark.number,
        code: 10,
        place: 1025,
    }
}

// How all ends where the source fails behind these bytes of a line: it breaks off, or the line is refused anyway.
fn end_behind(mark: Mark, text: &[u8]) -> End
    requires size { mark.size ≤ script_limit }
    requires short { length text.now ≤ 1024 }
    ensures is { (shape : Shape) → last_claimed shape SourceFailed mark.number mark.size text.now ≡ Err result }
    ensures refusal { result ≢ End.Broken → IsRefusal result }
{
    if may_separate(text) {
        return End::Broken;
    }
    match judge_size(mark, text.len() as u32) {
        Ok(()) => End::Broken,
        Err(end) => end,
    }
}

// Reads the text of the next line. Nothing more is read behind bytes that refuse it.
fn read_text<S: Source>(
    input: &mut Input,
    source: &mut S,
    text: &mut LineText,
    mark: Mark,
) -> Result<Taken, Failed>
    requires empty { text.old.items ≡ [] }
    requires size { mark.size ≤ script_limit }
    ensures ok { (shape : Shape) → IfOk result (λ taken. WhereTold (prepend_known input.old (S.left source.old))
        (prepend_known input.new (S.left source.new)) (TakenGives taken shape mark text.new.items)) }
    ensures err { (shape : Shape) → OnErr result (WhereTold (prepend_known input.old (S.left source.old))
        (prepend_known input.new (S.left source.new)) (TextBreaks shape mark)) }
    ensures line { IfOk result (λ taken. TextIs taken text.new.items) }
    ensures none { OnErr result (input.new ≡ []) }
    ensures cause { HasCause (S.faults source.old) (S.faults source.new) result }
{
    while input.fill(source)? {
        match input.take_piece(text) {
            Piece::Ended => return Ok(Taken::Whole),
            Piece::TooLong => return Ok(Taken::Refused(too_long(mark))),
            Piece::More => {}
        }
        match end_behind(mark, text) {
            End::Broken => {}
            end => return Ok(Taken::Refused(end)),
        }
    }
    if text.is_empty() {
        Ok(Taken::Missing)
    } else {
        Ok(Taken::Last)
    }
}

// Reads what a line says, of which so many bytes count.
fn judge_line(text: &[u8], line: &mut Line, shape: Shape, mark: Mark, count: u32) -> Result<(), End>
    requires short { length text.now ≤ 1024 }
    requires size { mark.size ≤ script_limit }
    requires count { count ≤ 1025 }
    ensures ok { OnOk result (line_said shape mark.number mark.size count text.now ≡ Ok line.new) }
    ensures line { OnOk result (line_of shape text.now ≡ Ok line.new) }
    ensures err { IfErr result (λ end. line_said shape mark.number mark.size count text.now ≡ Err end) }
    ensures refusal { IfErr result IsRefusal }
    ensures number { OnOk result (mark.number ≤ 1000000) }
    ensures fits { OnOk result (mark.size + count ≤ script_limit) }
{
    match judge_size(mark, count) {
        Ok(()) => {}
        Err(end) => return Err(end),
    }
    match line.read(text, shape) {
        Ok(()) => Ok(()),
        Err(refusal) => Err(End::Refused {
            line: mark.number,
            code: refusal.kind.number(),
            place: refusal.place,
        }),
    }
}

// A last line without a line feed is the separator, or is refused: at the latest, since no separator follows it.
fn last_line(text: &[u8], line: &mut Line, shape: Shape, mark: Mark) -> Result<Option<Follows>, End>
    requires short { length text.now ≤ 1024 }
    requires size { mark.size ≤ script_limit }
    requires number { mark.number ≤ 1000001 }
    ensures { LastGives result shape mark text.now }
{
    if is_separator(text) {
        return Ok(Some(Follows::Nothing));
    }
    match judge_line(text, line, shape, mark, text.len() as u32) {
        Ok(()) => Err(End::Refused {
            line: mark.number + 1,
            code: 17,
            place: 1,
        }),
        Err(end) => Err(end),
    }
}

// A whole line is the separator, a line of the script, or refused.
fn whole_line(
    text: &[u8],
    line: &mut Line,
    shape: Shape,
    mark: Mark,
) -> Result<Option<Follows>, End>
    requires short { length text.now ≤ 1024 }
    requires size { mark.size ≤ script_limit }
    ensures { WholeGives result shape mark text.now line.new }
{
    if is_separator(text) {
        return Ok(Some(Follows::Lines));
    }
    match judge_line(text, line, shape, mark, text.len() as u32 + 1) {
        Ok(()) => Ok(None),
        Err(end) => Err(end),
    }
}

// Takes the next line of the script, or the separator behind it, and says what may follow that.
fn next_line<S: Source>(
    input: &mut Input,
    source: &mut S,
    slip: &mut Slip,
    shape: Shape,
    mark: Mark,
) -> Result<Option<Follows>, End>
    requires size { mark.size ≤ script_limit }
    requires number { mark.number ≤ 1000001 }
    ensures gives { WhereTold (prepend_known input.old (S.left source.old))
        (prepend_known input.new (S.left source.new)) (NextGives result shape mark slip.new.text.items slip.new.line) }
    ensures line { LineGives result shape mark slip.new.text.items slip.new.line }
    ensures none { result ≡ Err End.Broken → input.new ≡ [] }
    ensures ok { OnOk result (S.faults source.new ≡ S.faults source.old) }
    ensures err { IfErr result (λ end. EndCause end (S.faults source.old) (S.faults source.new)) }
{
    slip.text.clear();
    match read_text(input, source, &mut slip.text, mark) {
        Ok(Taken::Whole) => whole_line(&slip.text, &mut slip.line, shape, mark),
        Ok(Taken::Last) => last_line(&slip.text, &mut slip.line, shape, mark),
        Ok(Taken::Missing) => Err(End::Refused {
            line: mark.number,
            code: 17,
            place: 1,
        }),
        Ok(Taken::Refused(end)) => Err(end),
        Err(_) => Err(End::Broken),
    }
}

// Appends a line with its line feed.
fn keep(kept: &mut Vec<u8>, text: &[u8]) -> Result<(), Stop>
    ensures ok { OnOk result (kept.new.items ≡ kept.old.items ++ (text.now ++ 10 ∷ [])) }
    ensures err { IfErr result (λ stop. stop ≡ Stop.NoMemory) }
{
    match kept.extend_from_slice(text) {
        Ok(()) => {}
        Err(_) => return Err(Stop::NoMemory),
    }
    match kept.push(b'\n') {
        Ok(()) => Ok(()),
        Err(_) => Err(Stop::NoMemory),
    }
}

/// Reads the lines of a script, up to and with the separator behind it, for a memory of this shape. The lines are put into
/// `kept`, each with its line feed.
pub(crate) fn read_script<S: Source>(
    input: &mut Input,
    source: &mut S,
    shape: Shape,
    kept: &mut Vec<u8>,
) -> Result<Kept, Stop>
    requires empty { kept.old.items ≡ [] }
    ensures few { IfOk result (λ script. script.lines ≤ 1000000) }
    ensures gives { KeptGives result shape kept.new.items (prepend_known input.old (S.left source.old))
        (prepend_known input.new (S.left source.new)) }
    ensures none { result ≡ Err (Stop.Ended End.Broken) → input.new ≡ [] }
    ensures ok { OnOk result (S.faults source.new ≡ S.faults source.old) }
    ensures err { IfErr result (λ stop. StopCause stop (S.faults source.old) (S.faults source.new)) }
{
    let mut slip = Slip {
        text: ArrayVec::new(),
        line: Line::new(),
    };
    let mut size = 0;
    for number in 1..=1_000_001 {
        match next_line(input, source, &mut slip, shape, Mark { number, size }) {
            Ok(None) => {
                match keep(kept, &slip.text) {
                    Ok(()) => {}
                    Err(stop) => return Err(stop),
                }
                size += slip.text.len() as u32 + 1;
            }
            Ok(Some(follows)) => {
                return Ok(Kept {
                    lines: number - 1,
                    follows,
                });
            }
            Err(end) => return Err(Stop::Ended(end)),
        }
    }
    // No line with the number 1,000,001 is taken.
    unreachable!()
}
