//! The configuration, and why a text is refused.

ghost use Rattle.std.specs.Prelude.{◌≡◌};
ghost use Rattle.mt_conf.specs.Outcome.{number_of};

use mt_blocks::{FlsConfig, RamConfig};
use mt_march::MarchKind;
use mt_port::Shape;

/// A configuration: the version of the text that says it, the memory's shape, the word that each of its cells holds first,
/// and what the two modules test.
#[derive(Drop)]
pub struct Config {
    pub version: u8,
    pub shape: Shape,
    pub initial: u64,
    pub ram_tst: RamConfig,
    pub fls_tst: FlsConfig,
}

/// The least rule that a text breaks; `mt_explain` has its sentence. But for `NoMemory` the variants have the numbers 1 to 17.
#[derive(Clone, Copy, Debug, PartialEq, Eq)]
pub enum ConfigRefusal {
    NotToml,
    UnknownKey,
    MissingKey,
    WrongType,
    Version,
    Width,
    Size,
    Word,
    Count,
    Algorithm,
    /// The march of the set with this number is refused: its kind, and the place counted in bytes from 1.
    March {
        set: u32,
        kind: MarchKind,
        place: usize,
    },
    TransparentDestructive,
    BlockRange,
    Overlap,
    CellsRange,
    FlashRange,
    CopyOverlap,
    NoMemory,
}

impl ConfigRefusal {
    /// The number of the rule, 1 to 17, and 0 for want of memory.
    pub fn number(&self) -> u8
        ensures { result ≡ number_of self.now }
    {
        match self {
            ConfigRefusal::NotToml => 1,
            ConfigRefusal::UnknownKey => 2,
            ConfigRefusal::MissingKey => 3,
            ConfigRefusal::WrongType => 4,
            ConfigRefusal::Version => 5,
            ConfigRefusal::Width => 6,
            ConfigRefusal::Size => 7,
            ConfigRefusal::Word => 8,
            ConfigRefusal::Count => 9,
            ConfigRefusal::Algorithm => 10,
            ConfigRefusal::March { .. } => 11,
            ConfigRefusal::TransparentDestructive => 12,
            ConfigRefusal::BlockRange => 13,
            ConfigRefusal::Overlap => 14,
            ConfigRefusal::CellsRange => 15,
            ConfigRefusal::FlashRange => 16,
            ConfigRefusal::CopyOverlap => 17,
            ConfigRefusal::NoMemory => 0,
        }
    }
}
