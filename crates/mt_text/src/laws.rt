//! What holds of all texts.

ghost use Rattle.std.specs.Prelude.{◌≡◌, ◌<◌, ◌≤◌, ◌^◌, ◌↔◌, ◌∷◌, ◌++◌, [], ℕ, List, true, Some, Ok, Err, decimal, length, map};
ghost use Rattle.std.specs.List.{list_all};
ghost use Rattle.mt_word.specs.Word.{Fits};
ghost use Rattle.mt_word.specs.declared.Width.{Width};
ghost use Rattle.mt_port.specs.Board.{IsWithinLimits};
ghost use Rattle.mt_port.specs.declared.board.Shape.{Shape};
ghost use Rattle.mt_window.specs.declared.log.Entry.{Entry};
ghost use Rattle.mt_text.specs.Accepted.{IsAccepted};
ghost use Rattle.mt_text.specs.Canonical.{canonical};
ghost use Rattle.mt_hex.specs.Digits.{word_text};
ghost use Rattle.mt_text.specs.Kinds.{IsOfKinds, bytes_of};
ghost use Rattle.mt_text.specs.Forms.{Form, step};
ghost use Rattle.mt_text.specs.LineTokens.{AreOfLine};
ghost use Rattle.mt_text.specs.Lines.{line_of, Part, settled, Spells, SpellsTokens, Refuses, FirstBroken};
ghost use Rattle.mt_text.specs.Separators.{WordsAreTokens, SpacesPartTokens, SignsAreTokens, CommentsBeginAtTheirSign, NamesDiffer, DetailsDiffer};
ghost use Rattle.mt_text.specs.TokenRules.{token_rules, IsLeastBroken, BreaksNone};
ghost use Rattle.mt_hex.specs.Hex.{is_hex, hex, hex_of, upper};
ghost use Rattle.mt_text.specs.Tokens.{Token, tokens, number_of};
ghost use Rattle.mt_text.specs.Trace.{entry_text, entries_text};
ghost use Rattle.mt_text.specs.declared.line.Line.{Line};
ghost use Rattle.mt_text.specs.declared.line.LineKind.TheVariants.{Spelling};
ghost use Rattle.mt_text.specs.declared.line.LineRefusal.{LineRefusal};

/// Reading, as a function of the text, gives the line that the text spells, and else its refusal.
pub fn reading_is_spelling()
    ensures ok { (shape : Shape) (text : List ℕ) (line : Line)
        → (line_of shape text ≡ Ok line) ↔ Spells shape text line }
    ensures err { (shape : Shape) (text : List ℕ) (e : LineRefusal)
        → (line_of shape text ≡ Err e) ↔ Refuses shape text e }
{}

/// A text spells one line, and one that spells a line is refused for nothing.
pub fn one_line()
    ensures one { (shape : Shape) (text : List ℕ) (a b : Line) → Spells shape text a → Spells shape text b → a ≡ b }
    ensures never_refused { (shape : Shape) (text : List ℕ) (a : Line) (e : LineRefusal) → Spells shape text a
        → Refuses shape text e → ⊥ }
{}

/// A text spells accepted lines alone.
pub fn spelled_lines_are_accepted()
    ensures { (shape : Shape) (text : List ℕ) (line : Line) → Spells shape text line → IsAccepted shape line }
{}

/// The canonical text of an accepted line spells that line.
pub fn canonical_lines_spell_themselves()
    ensures { (shape : Shape) (line : Line) → IsWithinLimits shape → IsAccepted shape line
        → Spells shape (canonical shape.width line) line }
{}

/// A text that spells a line has that line's tokens, but for the digits of words and brackets round an empty handler.
pub fn spelled_lines_have_their_tokens()
    ensures { (shape : Shape) (tokens : List Token) (line : Line) → SpellsTokens shape tokens line
        → AreOfLine shape.width line (bytes_of tokens) }
{}

/// The tokens of an accepted line spell it, with any digits that spell its words and with brackets round an empty handler or
/// none.
pub fn tokens_of_a_line_spell_it()
    ensures { (shape : Shape) (tokens : List Token) (line : Line) → IsWithinLimits shape → IsAccepted shape line
        → AreOfLine shape.width line (bytes_of tokens) → SpellsTokens shape tokens line }
{}

/// A refusal of a token is `Spelling` just where no line has, after the tokens before it, a token of its kind. The
/// tokens of a line are of its kinds.
pub fn spelling_is_a_token_of_no_line()
    ensures refused { (shape : Shape) (text : List ℕ) (e : LineRefusal) (b : FirstBroken shape (tokens 1 text) e)
        → (e.kind ≡ Spelling) ↔ ((rest : List (List ℕ)) → ¬ IsOfKinds (bytes_of b.before ++ b.token.bytes ∷ rest)) }
    ensures spelled { (shape : Shape) (tokens : List Token) (line : Line) → SpellsTokens shape tokens line
        → IsOfKinds (bytes_of tokens) }
{}

/// A refused token is told the least rule that it breaks of those of its place, and a token that is taken breaks none.
pub fn the_least_rule_is_told()
    ensures refused { (shape : Shape) (text : List ℕ) (e : LineRefusal) (b : FirstBroken shape (tokens 1 text) e)
        → IsLeastBroken (token_rules shape b.form b.token.bytes) e.kind }
    ensures taken { (shape : Shape) (form after : Form Part) (bytes : List ℕ)
        → step shape (settled form) bytes ≡ Ok after
        → BreaksNone (token_rules shape form bytes) }
{}

/// A number has one spelling, its decimal digits.
pub fn numbers_have_one_spelling()
    ensures { (bytes : List ℕ) (n : ℕ) → (number_of bytes ≡ Some n) ↔ ((bytes ≡ decimal n) × (n < 2 ^ 32)) }
{}

/// A word is spelled by 1 to 16 hexadecimal digits of either case, and the digits that a writer gives spell it.
pub fn words_have_hexadecimal_digits()
    ensures spelled { (bytes : List ℕ) (word : ℕ) → hex_of bytes ≡ Some word
        → (0 < length bytes) × (length bytes ≤ 16) × (list_all is_hex bytes ≡ true) × (word ≡ hex 0 bytes) }
    ensures each { (bytes : List ℕ) → 0 < length bytes → length bytes ≤ 16 → list_all is_hex bytes ≡ true
        → hex_of bytes ≡ Some (hex 0 bytes) }
    ensures either_case { (bytes : List ℕ) → hex_of (map upper bytes) ≡ hex_of bytes }
    ensures written { (width : Width) (word : ℕ) → Fits width word → hex_of (word_text width word) ≡ Some word }
{}

/// The trace of some entries is that of the first of them and then that of the others.
pub fn trace_lines_stand_in_order()
    ensures none { (width : Width) (number : ℕ) → entries_text width number [] ≡ [] }
    ensures one { (width : Width) (number : ℕ) (entry : Entry)
        → entries_text width number (entry ∷ []) ≡ entry_text width number entry }
    ensures more { (width : Width) (number : ℕ) (first second : List Entry)
        → entries_text width number (first ++ second)
        ≡ entries_text width number first ++ entries_text width number second }
{}

/// Which bytes end a token: a word is bytes other than the space, the brackets and the semicolon; a space parts tokens, and a
/// bracket or a semicolon is one of its own. A comment begins at its sign and nowhere else.
pub fn tokens_end_at_their_bytes()
    ensures words { WordsAreTokens }
    ensures spaces { SpacesPartTokens }
    ensures signs { SignsAreTokens }
    ensures comments { CommentsBeginAtTheirSign }
{}

/// The replies that are names have different texts, and so have the three kinds of details.
pub fn replies_are_told_apart()
    ensures names { NamesDiffer }
    ensures details { DetailsDiffer }
{}
