// Numbers from bytes and into them, the high byte first.
ghost use Rattle.std.specs.Prelude.{◌≡◌, ◌%◌, ◌^◌, ◌≤◌, length};
ghost use Rattle.meaning.specs.Given.{letters_at};
ghost use Rattle.plans.specs.Numbers.{number_of, total_of};

use meaning::Given;

// The low 64 bits of a number: of 8 and of 4 bytes std's own numbers, and of any other length one made byte by byte.
pub(crate) fn number(bytes: &[u8]) -> u64
    ensures { result ≡ number_of bytes.now % 2 ^ 64 }
{
    match bytes {
        [a, b, c, d, e, f, g, h] => u64::from_be_bytes([*a, *b, *c, *d, *e, *f, *g, *h]),
        [a, b, c, d] => u64::from(u32::from_be_bytes([*a, *b, *c, *d])),
        _ => byte_by_byte(bytes),
    }
}

fn byte_by_byte(bytes: &[u8]) -> u64
    ensures { result ≡ number_of bytes.now % 2 ^ 64 }
{
    bytes.iter().fold(
        0,
        |n: u64, b| n.wrapping_mul(256).wrapping_add(u64::from(*b)),
    )
}

// The numbers in all letters that came, added up: the low 64 bits.
pub(crate) fn total(given: &Given<'_>) -> u64
    ensures { result ≡ total_of (letters_at given.now) % 2 ^ 64 }
{
    given.iter().fold(0, |sum: u64, letter| sum.wrapping_add(number(letter.bytes)))
}

pub(crate) fn low_half(n: u64) -> u32
    ensures { result ≡ n % 2 ^ 32 }
{
    (n % (1 << 32)) as u32
}

// The bytes at the front of the buffer: that part of it.
pub(crate) fn written<'a>(buffer: &'a mut [u8], bytes: &[u8]) -> &'a [u8]
    requires { length bytes.now ≤ length buffer.old }
    ensures { result.now ≡ bytes.now }
{
    let part = &mut buffer[0..bytes.len()];
    part.copy_from_slice(bytes);
    part
}
