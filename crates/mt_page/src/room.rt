//! The room that a caller has for a text.

ghost use Rattle.std.specs.Prelude.{◌≡◌, ◌≤◌, length, take, IfSome};

use mt_replay::Status;

/// How a call ends: its status, and how many bytes it wrote.
#[derive(Clone, Copy, Debug)]
pub(crate) struct Told {
    pub status: Status,
    pub written: usize,
}

impl Told {
    /// No memory was found, and nothing was written.
    pub(crate) fn no_memory() -> Told
        ensures status { result.status ≡ Status.NoMemory }
        ensures nothing { result.written ≡ 0 }
    {
        Told {
            status: Status::NoMemory,
            written: 0,
        }
    }
}

/// Puts a text at the front of the room, if it finds room there, and answers its length.
pub(crate) fn put(text: &[u8], room: &mut [u8]) -> Option<usize>
    ensures front { IfSome result (λ n. take n room.new ≡ text.now) }
    ensures fits { IfSome result (λ n. n ≤ length room.new) }
{
    let len = text.len();
    if room.len() < len {
        return None;
    }
    room[..len].copy_from_slice(text);
    Some(len)
}
