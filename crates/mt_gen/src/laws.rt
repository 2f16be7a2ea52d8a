//! Laws of generated scripts.

ghost use Rattle.std.specs.Prelude.{◌≡◌, ◌≤◌, ◌+◌, ◌∷◌, ◌++◌, [], ℕ, List, All, Ok, length};
ghost use Rattle.mt_window.specs.declared.log.Entry.{Entry};
ghost use Rattle.mt_word.specs.declared.Width.TheVariants.{W16};
ghost use Rattle.mt_conf.specs.Accepted.{IsAcceptedConfig};
ghost use Rattle.mt_text.specs.Accepted.{IsAccepted};
ghost use Rattle.mt_text.specs.Canonical.{canonical};
ghost use Rattle.mt_text.specs.Lines.{line_of};
ghost use Rattle.mt_gen.specs.Config.{job_config};
ghost use Rattle.mt_gen.specs.Numbers.{next};
ghost use Rattle.mt_gen.specs.Script.{job_shape, drawn_line, lines_behind, script};
ghost use Rattle.mt_gen.specs.Summary.{summary_of, with_entry};
ghost use Rattle.mt_gen.specs.Inner.Forms.{LinesAreOfForms};

use mt_text::{canonical_lines_spell_themselves, reading_is_spelling};

/// A script has 20,000 lines, whatever its number is.
pub fn scripts_have_20000_lines()
    ensures { (number : ℕ) → length (script number) ≡ 20000 }
{}

/// The configuration of every generated job breaks no rule.
pub fn job_config_is_accepted()
    ensures { IsAcceptedConfig job_config }
{}

/// Each line of a script is accepted for the job's memory. Its canonical text has at most 34 bytes, and a reader takes it
/// for that line.
pub fn scripts_are_accepted()
    ensures accepted { (number : ℕ) → All (IsAccepted job_shape) (script number) }
    ensures short { (number : ℕ) → All (λ line. length (canonical W16 line) ≤ 34) (script number) }
    ensures read { (number : ℕ) → All (λ line. line_of job_shape (canonical W16 line) ≡ Ok line) (script number) }
{
    canonical_lines_spell_themselves();
    reading_is_spelling();
}

/// The lines behind a number are that of the next number, and then those behind the next number.
pub fn lines_go_on()
    ensures { (count x : ℕ) → lines_behind (count + 1) x ≡ drawn_line (next x) ∷ lines_behind count (next x) }
{}

/// Each line behind the first three has one of six forms, with numbers that are in range.
pub fn lines_are_of_forms()
    ensures { LinesAreOfForms }
{}

/// A summary with one entry more is that of all entries with this one at their end.
pub fn summaries_are_sums()
    ensures { (lines : ℕ) (entries : List Entry) (entry : Entry)
        → with_entry (summary_of lines entries) entry ≡ summary_of lines (entries ++ entry ∷ []) }
{}
