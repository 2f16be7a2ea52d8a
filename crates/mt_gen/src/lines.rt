//! The lines of a generated script, one after another.

ghost use Rattle.std.specs.Prelude.{◌≡◌, ◌∷◌, [], MatchBool, false};
ghost use Rattle.mt_gen.specs.Script.{script};

use crate::draw::{draw_first, draw_line};
use crate::line::next;
use mt_text::Line;
use std::marker::Model;

/// The lines of a script that were not taken yet. They take no memory but that of the line at hand.
#[derive(Drop)]
pub struct ScriptLines {
    first: u32,
    number: u64,
    behind: u32,
}

impl Model for ScriptLines {
    ghost use Rattle.std.specs.Prelude.{List, ◌++◌, drop};
    ghost use Rattle.mt_text.specs.declared.line.Line.{Line};
    ghost use Rattle.mt_gen.specs.Script.{first_lines, lines_behind};

    ghost Value = { List Line };

    ghost view = { λ s. drop s.first first_lines ++ lines_behind s.behind s.number };
}

impl ScriptLines {
    /// All lines of the script with this number.
    #[tactic(auto, unfolding(crate::specs::Script::script))]
    pub fn new(number: u32) -> ScriptLines
        ensures { result ≡ script number }
    {
        ScriptLines {
            first: 0,
            number: u64::from(number),
            behind: 19_997,
        }
    }

    /// Takes the next line, whatever the line at hand was. Answers whether there was one. At the end it stays at the end.
    #[tactic(auto, unfolding(crate::specs::Script::lines_behind))]
    pub fn take(&mut self, line: &mut Line) -> bool
        ensures next { MatchBool result (self.old ≡ line.new ∷ self.new) (self.old ≡ []) }
        ensures end { result ≡ false → self.new ≡ self.old }
    {
        if self.first < 3 {
            draw_first(line, self.first);
            self.first += 1;
            return true;
        }
        if self.behind == 0 {
            return false;
        }
        self.behind -= 1;
        self.number = next(self.number);
        draw_line(line, self.number);
        true
    }
}
