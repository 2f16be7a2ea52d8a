//! What holds of all texts.

ghost use Rattle.mt_hex.specs.Laws.{WordsFit, lower_digits, upper_digits, DigitsAreWritten, AreRead, DigitsAreThese};

/// The word that a width's digits spell fits the width.
pub fn words_fit()
    ensures { WordsFit }
{}

/// A digit is the byte at its value of the text `0123456789abcdef`; either case is read, and no other byte.
pub fn digits_have_values()
    ensures written { DigitsAreWritten }
    ensures lower { AreRead lower_digits }
    ensures upper { AreRead upper_digits }
    ensures these { DigitsAreThese }
{}
