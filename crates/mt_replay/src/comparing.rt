//! Compares a given text with an expected one.

ghost use Rattle.std.specs.Prelude.{◌≡◌, ◌≤◌, ◌<◌, ◌+◌, ◌^◌, ℕ, List, Option, [], length, OnErr};
ghost use Rattle.std.specs.Io.KnownBytes.{prepend_known};
ghost use Rattle.mt_verify.specs.Lines.{feeds, feed_limit};
ghost use Rattle.mt_verify.specs.Laws.{IsWhole, HasNoEmptyLine};
ghost use Rattle.mt_replay.specs.Inner.Comparing.{Stands, Caused, Compares, KeepsCause, IsDrained, EndsBefore, Shares, VerdictGives, VerdictCaused};

use crate::input::Input;
use mt_port::{Failed, Source};
use mt_verify::{
    Tally, common, equal_texts, expected_ends, feeds_end_open_lines, given_ends, line_counts,
    mismatches,
};

/// What is known of the given text: all of it is expected so far; another line was found, with its number; it ended where
/// the last line feed alone is lacking, and this line is another one if more is expected; or the source failed.
#[derive(Clone, Copy, Debug, PartialEq, Eq)]
pub(crate) enum State {
    Matching,
    Other(u32),
    Lacking(u32),
    Broken,
}

/// How two texts compare: they have the same lines, and so many; or another line was found, with its number.
#[derive(Clone, Copy, Debug, PartialEq, Eq)]
pub(crate) enum Verdict {
    Same(u32),
    Differs(u32),
}

/// The comparison of a given text with an expected one, which comes in pieces.
#[derive(Clone, Copy, Debug, PartialEq, Eq)]
pub(crate) struct Comparison {
    tally: Tally,
    state: State,
}

impl Comparison {
    /// Nothing is compared yet.
    pub(crate) fn new() -> Comparison
        ensures stands { (given : Option (List ℕ)) → Stands result [] given given }
        ensures caused { (faults : ℕ) → Caused result faults faults }
        ensures drained { (held : List ℕ) → IsDrained result held }
        ensures none { result.tally ≡ 0 }
    {
        Comparison {
            tally: Tally::new(),
            state: State::Matching,
        }
    }

    // What is known where the given text ended before these bytes.
    fn ended(&self, rest: &[u8]) -> State
        requires { 0 < length rest.now }
        ensures { EndsBefore result self.now.tally rest.now }
    {
        let next = rest[0];
        let line = self.tally.ended_line(next);
        if rest.len() > 1 {
            return State::Other(line);
        }
        if next == b'\n' {
            return State::Lacking(line);
        }
        State::Other(line)
    }

    // Takes the bytes that are held as far as they are expected, and answers how many they are.
    fn share(&mut self, input: &mut Input, rest: &[u8]) -> usize
        requires short { length rest.now < 2 ^ 32 }
        requires few { self.old.tally + feeds rest.now < feed_limit }
        ensures shares { Shares result self.old.tally self.new.tally rest.now input.old input.new }
        ensures state { self.new.state ≡ self.old.state }
    {
        let same = common(rest, input.held()) as usize;
        self.tally.take(&rest[..same]);
        input.skip(same);
        same
    }

    // Compares the expected bytes with those that the source gives.
    fn compare_bytes<S: Source>(&mut self, input: &mut Input, source: &mut S, text: &[u8])
        requires short { length text.now < 2 ^ 32 }
        requires few { self.old.tally + feeds text.now < feed_limit }
        requires matching { self.old.state ≡ State.Matching }
        ensures stands { Compares self.old self.new text.now (prepend_known input.old (S.left source.old))
            (prepend_known input.new (S.left source.new)) }
        ensures caused { KeepsCause self.old self.new (S.faults source.old) (S.faults source.new) }
        ensures drained { IsDrained self.old input.old → IsDrained self.new input.new }
        ensures few { self.new.tally ≤ self.old.tally + feeds text.now }
    {
        mismatches();
        given_ends();
        let mut done = 0;
        while done < text.len() {
            match input.fill(source) {
                Ok(true) => {}
                Ok(false) => {
                    self.state = self.ended(&text[done..]);
                    return;
                }
                Err(_) => {
                    self.state = State::Broken;
                    return;
                }
            }
            let same = self.share(input, &text[done..]);
            done += same;
            if done < text.len() && !input.held().is_empty() {
                self.state = State::Other(self.tally.other_line());
                return;
            }
        }
    }

    /// Compares the next bytes that are expected. The source is read only where all given bytes are expected so far.
    pub(crate) fn compare<S: Source>(&mut self, input: &mut Input, source: &mut S, text: &[u8])
        requires short { length text.now < 2 ^ 32 }
        requires few { self.old.tally + feeds text.now < feed_limit }
        ensures stands { Compares self.old self.new text.now (prepend_known input.old (S.left source.old))
            (prepend_known input.new (S.left source.new)) }
        ensures caused { KeepsCause self.old self.new (S.faults source.old) (S.faults source.new) }
        ensures drained { IsDrained self.old input.old → IsDrained self.new input.new }
        ensures few { self.new.tally ≤ self.old.tally + feeds text.now }
    {
        given_ends();
        match self.state {
            State::Matching => self.compare_bytes(input, source, text),
            State::Lacking(line) => {
                if text.is_empty() {
                    return;
                }
                self.state = State::Other(line);
            }
            State::Other(_) => {}
            State::Broken => {}
        }
    }

    /// Says how the texts compare, where the whole of the expected one was compared.
    pub(crate) fn finish<S: Source>(
        self,
        input: &mut Input,
        source: &mut S,
    ) -> Result<Verdict, Failed>
        ensures gives { (expected : List ℕ) (given : Option (List ℕ)) → IsWhole expected → HasNoEmptyLine expected
            → Stands self expected given (prepend_known input.old (S.left source.old))
            → VerdictGives result expected given (prepend_known input.new (S.left source.new)) }
        ensures caused { (faults : ℕ) → Caused self faults (S.faults source.old) → VerdictCaused result faults (S.faults source.new) }
        ensures none { IsDrained self input.old → OnErr result (input.new ≡ []) }
    {
        expected_ends();
        equal_texts();
        feeds_end_open_lines();
        line_counts();
        match self.state {
            State::Matching => match input.fill(source) {
                Ok(true) => Ok(Verdict::Differs(self.tally.other_line())),
                Ok(false) => Ok(Verdict::Same(self.tally.other_line() - 1)),
                Err(failed) => Err(failed),
            },
            State::Other(line) => Ok(Verdict::Differs(line)),
            State::Lacking(_) => Ok(Verdict::Same(self.tally.other_line())),
            State::Broken => Err(Failed),
        }
    }
}
