//! Laws of words and their bits.

ghost use Rattle.std.specs.Prelude.{◌≡◌, ◌≢◌, ◌<◌, ◌^◌, ℕ, Bool};
ghost use Rattle.mt_word.specs.Word.{has_bit, put_bit};

/// A bit that is put is there, every other bit stays, the last put counts, and to put what is there changes nothing.
pub fn bits_are_put()
    ensures here { (word i : ℕ) (value : Bool) → has_bit (put_bit word i value) i ≡ value }
    ensures others { (word i j : ℕ) (value : Bool) → j ≢ i → has_bit (put_bit word i value) j ≡ has_bit word j }
    ensures twice { (word i : ℕ) (one two : Bool) → put_bit (put_bit word i one) i two ≡ put_bit word i two }
    ensures same { (word i : ℕ) (value : Bool) → has_bit word i ≡ value → put_bit word i value ≡ word }
    ensures fits { (width word i : ℕ) (value : Bool) → word < 2 ^ width → i < width → put_bit word i value < 2 ^ width }
{}
