//! The lines of the generated script, as text.

ghost use Rattle.std.specs.Prelude.{◌≡◌, ◌<◌, ◌≤◌, ◌+◌, ◌++◌, [], codes, decimal, length};
ghost use Rattle.mt_word.specs.declared.Width.TheVariants.{W16};
ghost use Rattle.mt_text.specs.Canonical.{canonical};
ghost use Rattle.mt_gen.specs.Numbers.{next};
ghost use Rattle.mt_gen.specs.Script.{ram_tick, fls_tick, write_line, read_line, copy_line, result_line, line_of_form, drawn_line, first_lines, text_of};

use arrayvec::ArrayVec;
use mt_hex::{push_bytes, push_number, push_word};
use mt_word::Width;

/// The text of a line. The longest has 35 bytes; there is room for numbers of ten digits and a word of sixteen.
pub type Text = ArrayVec<u8, 72>;

/// The number behind another, by Knuth's linear congruential generator.
#[tactic(auto, unfolding(crate::specs::Numbers::next))]
pub fn next(number: u64) -> u64
    ensures { result ≡ next number }
{
    number
        .wrapping_mul(6_364_136_223_846_793_005)
        .wrapping_add(1_442_695_040_888_963_407)
}

// Appends a text and a number.
fn push_numbered(out: &mut Text, bytes: &[u8], n: u32)
    requires { length out.old.items + length bytes.now + 10 ≤ 72 }
    ensures text { out.new.items ≡ out.old.items ++ bytes.now ++ decimal n }
    ensures short { length out.new.items ≤ length out.old.items + length bytes.now + 10 }
{
    push_bytes(out, bytes);
    push_number(out, n);
}

#[tactic(auto, unfolding(mt_text::specs::Canonical::canonical))]
fn push_ram_tick(out: &mut Text, offset: u32, addr: u32, word: u64)
    requires { out.old.items ≡ [] }
    ensures { out.new.items ≡ canonical W16 (ram_tick offset addr word) ++ codes "\n" }
{
    push_numbered(out, b"tick ram @", offset);
    push_numbered(out, b"[r ", addr);
    push_numbered(out, b"; add ", addr);
    out.push(b' ');
    push_word(out, Width::W16, word);
    push_bytes(out, b"]\n");
}

#[tactic(auto, unfolding(mt_text::specs::Canonical::canonical))]
fn push_fls_tick(out: &mut Text, offset: u32, addr: u32)
    requires { out.old.items ≡ [] }
    ensures { out.new.items ≡ canonical W16 (fls_tick offset addr) ++ codes "\n" }
{
    push_numbered(out, b"tick fls @", offset);
    push_numbered(out, b"[f ", addr);
    push_bytes(out, b"]\n");
}

#[tactic(auto, unfolding(mt_text::specs::Canonical::canonical))]
fn push_write(out: &mut Text, addr: u32, word: u64)
    requires { out.old.items ≡ [] }
    ensures { out.new.items ≡ canonical W16 (write_line addr word) ++ codes "\n" }
{
    push_numbered(out, b"app w ", addr);
    out.push(b' ');
    push_word(out, Width::W16, word);
    out.push(b'\n');
}

#[tactic(auto, unfolding(mt_text::specs::Canonical::canonical))]
fn push_read(out: &mut Text, addr: u32)
    requires { out.old.items ≡ [] }
    ensures { out.new.items ≡ canonical W16 (read_line addr) ++ codes "\n" }
{
    push_numbered(out, b"app r ", addr);
    out.push(b'\n');
}

#[tactic(auto, unfolding(mt_text::specs::Canonical::canonical))]
fn push_copy(out: &mut Text, src: u32, dst: u32)
    requires { out.old.items ≡ [] }
    ensures { out.new.items ≡ canonical W16 (copy_line src dst) ++ codes "\n" }
{
    push_numbered(out, b"app copy ", src);
    push_numbered(out, b" ", dst);
    out.push(b'\n');
}

#[tactic(auto, unfolding(mt_text::specs::Canonical::canonical))]
fn push_result(out: &mut Text)
    requires { out.old.items ≡ [] }
    ensures { out.new.items ≡ canonical W16 result_line ++ codes "\n" }
{
    push_bytes(out, b"ram GetTestResult\n");
}

/// Appends the line of a form, with its line feed, to an empty text.
fn push_form(out: &mut Text, form: u64, addr: u32, word: u64)
    requires empty { out.old.items ≡ [] }
    requires addr { addr < 256 }
    requires word { word < 65536 }
    ensures { out.new.items ≡ canonical W16 (line_of_form form addr word) ++ codes "\n" }
{
    match form {
        0..=2 => push_ram_tick(out, (word % 512) as u32, addr, word),
        3 => push_write(out, addr, word),
        4 => push_read(out, addr),
        5 => push_fls_tick(out, (word % 8) as u32, addr % 64),
        6 => push_result(out),
        _ => push_copy(out, addr, (word % 256) as u32),
    }
}

/// Appends the line of a number, with its line feed, to an empty text.
#[tactic(auto, unfolding(crate::specs::Script::drawn_line))]
pub fn push_line(out: &mut Text, number: u64)
    requires { out.old.items ≡ [] }
    ensures { out.new.items ≡ canonical W16 (drawn_line number) ++ codes "\n" }
{
    let upper = number >> 33;
    push_form(
        out,
        upper % 8,
        (upper / 8 % 256) as u32,
        upper / 2048 % 65536,
    );
}

/// The first lines: the modules are initialized and tests are allowed.
#[tactic(auto, unfolding(mt_text::specs::Canonical::canonical))]
pub fn first_text() -> Text
    ensures { result.items ≡ text_of first_lines }
{
    let mut out = ArrayVec::new();
    push_bytes(&mut out, b"ram Init\nfls Init\nram Allow\n");
    out
}
