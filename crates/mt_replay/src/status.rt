//! How a replay ends.

ghost use Rattle.std.specs.Prelude.{◌≡◌};
ghost use Rattle.mt_replay.specs.Status.{exit_number as exit_number_lem};

/// How a replay ends.
#[derive(Clone, Copy, Debug, PartialEq, Eq)]
pub enum Status {
    /// The whole text was written, and the input was read to its end.
    Done,
    /// The words are no form of the program.
    Usage,
    /// The configuration is refused.
    BadConfig { code: u8 },
    /// A script line is refused: its number, the rule, and the place of its first byte that breaks it, all from 1.
    BadScript { line: u32, code: u8, place: u32 },
    /// The source failed.
    ReadFault,
    /// The sink failed.
    WriteFault,
    /// No memory was found. Nothing was written.
    NoMemory,
    /// The given trace is another one: the number of its first other line, from 1.
    Differs { line: u32 },
}

/// The number with which the program ends.
pub fn exit_number(status: &Status) -> u8
    ensures { result ≡ exit_number_lem status.now }
{
    match status {
        Status::Done => 0,
        Status::Usage => 2,
        Status::BadConfig { .. } => 3,
        Status::BadScript { .. } => 4,
        Status::ReadFault => 5,
        Status::WriteFault => 6,
        Status::NoMemory => 7,
        Status::Differs { .. } => 8,
    }
}
