//! What is tested, and how.

use crate::list::List;
use crate::span::{HasSpan, Span};
use mt_plan::{Algorithm, Policy};

/// A block of RAM words. A destructive test leaves `fill` in each of them.
#[derive(Clone, Copy, Debug, PartialEq, Eq)]
pub struct Block {
    pub span: Span,
    pub policy: Policy,
    pub fill: u64,
}

impl HasSpan for Block {
    ghost use Rattle.mt_blocks.specs.declared.config.Block.{Block};

    ghost span_of = { λ (b : Block). b.span };

    fn span(&self) -> Span {
        self.span
    }
}

/// A block of flash words, and the address of the first word of its copy.
#[derive(Clone, Copy, Debug, PartialEq, Eq)]
pub struct FlashBlock {
    pub span: Span,
    pub copy: u32,
}

impl HasSpan for FlashBlock {
    ghost use Rattle.mt_blocks.specs.declared.config.FlashBlock.{FlashBlock};

    ghost span_of = { λ (b : FlashBlock). b.span };

    fn span(&self) -> Span {
        self.span
    }
}

/// A parameter set: the algorithm, the background word of the cells, the greatest number of words of a slice, the
/// greatest number of words that one tick tests, the blocks, and how often urgent requests may break the test of a slice
/// off in one event.
#[derive(Drop)]
pub struct ParamSet {
    pub alg: Algorithm,
    pub background: u64,
    pub atomic: u32,
    pub cells: u32,
    pub blocks: List<Block>,
    pub retries: u32,
}

/// The parameter sets of RamTst.
#[derive(Drop)]
pub struct RamConfig {
    pub sets: List<ParamSet>,
}

/// What FlsTst compares: the greatest numbers of words of a slice and of a tick, the last identifier of an interval
/// before 0 comes again, the blocks that ticks compare, and those that are compared on demand.
#[derive(Drop)]
pub struct FlsConfig {
    pub atomic: u32,
    pub cells: u32,
    pub interval_end: u32,
    pub bgnd: List<FlashBlock>,
    pub fgnd: List<FlashBlock>,
}
