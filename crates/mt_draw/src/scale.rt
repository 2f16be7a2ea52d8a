//! Places on a picture.

ghost use Rattle.std.specs.Prelude.{◌≡◌, ◌≤◌, ◌+◌};
ghost use Rattle.mt_draw.specs.Places.{on};

/// A line of a picture from `start` on, `length` long, on which the numbers from 0 to `last` have places.
#[derive(Clone, Copy, Debug)]
pub struct Scale {
    pub start: u16,
    pub length: u16,
    pub last: u32,
}

impl Scale {
    /// The place of a number; one above the last has the last's.
    #[tactic(auto, unfolding(crate::specs::Places::on))]
    pub fn place(self, number: u32) -> u32
        ensures place { result ≡ on self number }
        ensures inside { result ≤ self.start + self.length }
    {
        let last = u64::from(self.last.max(1));
        let along = u64::from(number).min(last) * u64::from(self.length) / last;
        u32::from(self.start) + along as u32
    }
}
