//! Two pieces of text, byte by byte.

ghost use Rattle.std.specs.Prelude.{◌≡◌, ◌≢◌, ◌<◌, ◌≤◌, ◌^◌, length, take, slice_index};

/// The length of the longest common prefix of two pieces of text.
pub fn common(expected: &[u8], given: &[u8]) -> u32
    requires { length expected.now < 2 ^ 32 }
    ensures expected { result ≤ length expected.now }
    ensures given { result ≤ length given.now }
    ensures prefix { take result expected.now ≡ take result given.now }
    ensures longest { result < length expected.now → result < length given.now
        → slice_index expected.now result ≢ slice_index given.now result }
{
    let mut same = 0;
    while same < expected.len() && same < given.len() && expected[same] == given[same] {
        same += 1;
    }
    same as u32
}
