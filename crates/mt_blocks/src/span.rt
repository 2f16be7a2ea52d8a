//! Spans of words.

ghost use Rattle.std.specs.Prelude.{◌≡◌, ◌<◌, length, map};
ghost use Rattle.mt_blocks.specs.declared.span.Span.{Span};
ghost use Rattle.mt_blocks.specs.Slices.{span_at};

/// Words that lie side by side: the addresses of the first and of the last one.
#[derive(Clone, Copy, Debug, PartialEq, Eq)]
pub struct Span {
    pub first: u32,
    pub last: u32,
}

/// What lies on a span.
pub trait HasSpan {
    /// Its span.
    ghost span_of: { Self → Span };

    /// The span on which it lies.
    fn span(&self) -> Span
        ensures { result ≡ span_of self.now };
}

// The span of the block with the number i.
pub(crate) fn span_in<T: HasSpan>(blocks: &[T], i: u32) -> Span
    requires { i < length blocks.now }
    ensures { result ≡ span_at (map T.span_of blocks.now) i }
{
    blocks[i as usize].span()
}
