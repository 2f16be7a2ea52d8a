//! CRC-32, as IEEE 802.3 has it. The kit has no crate for it.

ghost use Rattle.std.specs.Prelude.{◌≡◌, ◌≤◌};
ghost use Rattle.mt_unit.specs.Checksums.{all_taken_in, checksum, crc32, in_bytes, polynomial, shifted, shifted_by, taken_in};

/// The polynomial, the least power first.
const POLYNOMIAL: u32 = 0xedb8_8320;

fn shifted(register: u32) -> u32
    ensures { result ≡ shifted register }
{
    if register % 2 == 1 {
        (register / 2) ^ POLYNOMIAL
    } else {
        register / 2
    }
}

/// The register once a byte was taken in.
fn taken_in(register: u32, byte: u8) -> u32
    ensures { result ≡ taken_in register byte }
{
    let mut left = register ^ u32::from(byte);
    for _index in 0..8u32 {
        left = shifted(left);
    }
    left
}

/// The register once a number was taken in, in so many bytes, the least first.
fn number_taken_in(register: u32, size: u32, number: u64) -> u32
    requires { size ≤ 8 }
    ensures { result ≡ all_taken_in register (in_bytes size number) }
{
    let mut left = number;
    let mut reached = register;
    for _index in 0..size {
        reached = taken_in(reached, (left % 256) as u8);
        left /= 256;
    }
    reached
}

/// The checksum of some numbers, each in so many bytes, the least first.
pub fn checksum(size: u32, numbers: &[u64]) -> u32
    requires { size ≤ 8 }
    ensures { result ≡ checksum size numbers.now }
{
    let mut register = u32::MAX;
    for number in numbers {
        register = number_taken_in(register, size, *number);
    }
    u32::MAX - register
}
