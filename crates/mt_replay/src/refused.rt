//! Why a configuration is refused.

ghost use Rattle.std.specs.Prelude.{◌≡◌};
ghost use Rattle.mt_replay.specs.Outcome.{refused_of, rule_number};

use mt_conf::ConfigRefusal;

/// Why a configuration is refused: the number of a rule; or the march of the set with this number, counted from 0, with
/// the number of the march's rule and the place in its text, counted in bytes from 1.
#[derive(Clone, Copy, Debug, PartialEq, Eq)]
pub enum Refused {
    Rule(u8),
    March { set: u32, kind: u8, place: usize },
}

/// The refusal of a configuration as it is told.
pub fn refused_of(refusal: &ConfigRefusal) -> Refused
    ensures { result ≡ refused_of refusal.now }
{
    match refusal {
        ConfigRefusal::March { set, kind, place } => Refused::March {
            set: *set,
            kind: kind.number(),
            place: *place,
        },
        _ => Refused::Rule(refusal.number()),
    }
}

/// The rule's number.
pub fn rule_number(why: &Refused) -> u8
    ensures { result ≡ rule_number why.now }
{
    match why {
        Refused::Rule(code) => *code,
        Refused::March { .. } => 11,
    }
}
