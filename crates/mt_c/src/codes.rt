//! The numbers by which C is told something.

ghost use Rattle.std.specs.Prelude.{◌≡◌, ◌≢◌, ◌<◌, ◌+◌};
ghost use Rattle.mt_march.specs.Reading.{march_number};
ghost use Rattle.mt_c.specs.Codes.{access_after, refusal_code, reply_number, reply_of};

use mt_engine::{Due, Ending, Refusal};
use mt_march::MarchKind;

/// The access that is due. The word is that of a write.
#[repr(C)]
#[derive(Clone, Copy)]
pub struct MtAccess {
    pub word: u64,
    pub address: u32,
}

/// Why no test was set up: the number of the rule, 0 for none, and of a march the place, counted in bytes from 1.
#[repr(C)]
#[derive(Clone, Copy)]
pub struct MtRefusal {
    pub rule: u32,
    pub place: usize,
}

/// What a call answers.
#[derive(Clone, Copy)]
pub(crate) enum Reply {
    Read,
    Write,
    Pass,
    Fail,
    BrokenOff,
    NoWord,
    TooLate,
    Spoilt,
}

impl Reply {
    /// The number of the reply.
    pub(crate) fn number(self) -> u32
        ensures { result ≡ reply_number self }
    {
        match self {
            Reply::Read => 1,
            Reply::Write => 2,
            Reply::Pass => 3,
            Reply::Fail => 4,
            Reply::BrokenOff => 5,
            Reply::NoWord => 6,
            Reply::TooLate => 7,
            Reply::Spoilt => 8,
        }
    }
}

/// Writes the access that is due, and answers the number of the reply.
pub(crate) fn tell(due: Due, access: &mut MtAccess) -> u32
    ensures reply { result ≡ reply_number (reply_of due) }
    ensures access { access.new ≡ access_after due access.old }
    ensures told { result < 6 }
{
    match due {
        Due::Read(address) => {
            access.address = address;
            Reply::Read.number()
        }
        Due::Write(address, word) => {
            access.address = address;
            access.word = word;
            Reply::Write.number()
        }
        Due::Ended(Ending::Pass) => Reply::Pass.number(),
        Due::Ended(Ending::Fail) => Reply::Fail.number(),
        Due::Ended(Ending::BrokenOff) => Reply::BrokenOff.number(),
    }
}

/// Nothing is refused.
pub(crate) fn accepted() -> MtRefusal
    ensures { result ≡ record { rule = 0; place = 0 } }
{
    MtRefusal { rule: 0, place: 0 }
}

/// The number of a march's rule.
fn march_rule(kind: MarchKind) -> u32
    ensures { result ≡ 8 + march_number kind }
{
    8 + u32::from(kind.number())
}

/// A refusal in numbers.
pub(crate) fn refused(refusal: Refusal) -> MtRefusal
    ensures code { result ≡ refusal_code refusal }
    ensures some { result.rule ≢ 0 }
{
    let (rule, place) = match refusal {
        Refusal::Count => (3, 0),
        Refusal::Addresses => (4, 0),
        Refusal::Background => (5, 0),
        Refusal::Fill => (6, 0),
        Refusal::Length => (7, 0),
        Refusal::TransparentFill => (8, 0),
        Refusal::March(march) => (march_rule(march.kind), march.place),
    };
    MtRefusal { rule, place }
}
