//! The places at which a call of a stream over memory is to fail.

ghost use Rattle.std.specs.Prelude.{◌≡◌, ◌<◌, ◌+◌, ◌↔◌, IsTrue, Contains};
ghost use Rattle.mt_port.specs.Memory.{StopsBefore, without};

// Whether a call at this place is to fail.
pub(crate) fn is_place(fails: &[u64], place: u64) -> bool
    ensures { IsTrue result ↔ Contains fails.now place }
{
    fails.contains(&place)
}

// A place has failed. One that is named twice counts as one.
pub(crate) fn fail_at(fails: &mut Vec<u64>, place: u64)
    ensures { fails.new.items ≡ without place fails.old.items }
{
    fails.retain(|fail| *fail != place);
}

// How many of `limit` bytes come before the next place at which a call is to fail.
pub(crate) fn room_before(fails: &[u64], place: u64, limit: usize) -> usize
    ensures stops { StopsBefore fails.now place limit result }
    ensures some { 0 < limit → 0 < result }
{
    let mut room = limit;
    for fail in fails {
        if *fail > place && *fail - place < room as u64 {
            room = (*fail - place) as usize;
        }
    }
    room
}
