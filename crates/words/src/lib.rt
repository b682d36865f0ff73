// Numbers in bytes, 'little-endian', and the check of a block.
#![tactic(auto)]

pub mod check;

ghost use Rattle.std.specs.Prelude.{◌≡◌, ◌+◌, ◌≤◌, ◌<◌, length, take, drop};
ghost use Rattle.words.specs.Words.{byte_of, pair_at, quad_at, word_at, number_at};

// The N bytes from `at` on. They are taken as a part of the whole, and so as one load. The caller
// knows that they are there, here and below.
fn bytes_at<const N: usize>(bytes: &[u8], at: usize) -> [u8; N]
    requires { at + N ≤ length bytes.now }
    ensures { result ≡ take N (drop at bytes.now) }
{
    *bytes[at..at + N].as_array().unwrap()
}

// The number in two bytes.
fn pair_at(bytes: &[u8], at: usize) -> u16
    requires { at + 2 ≤ length bytes.now }
    ensures { result ≡ pair_at bytes.now at }
{
    u16::from_le_bytes(bytes_at(bytes, at))
}

// The number in four bytes.
pub fn quad_at(bytes: &[u8], at: usize) -> u32
    requires { at + 4 ≤ length bytes.now }
    ensures { result ≡ quad_at bytes.now at }
{
    u32::from_le_bytes(bytes_at(bytes, at))
}

// The number in eight bytes.
pub fn word_at(bytes: &[u8], at: usize) -> u64
    requires { at + 8 ≤ length bytes.now }
    ensures { result ≡ word_at bytes.now at }
{
    u64::from_le_bytes(bytes_at(bytes, at))
}

// The signed number in eight bytes.
pub fn number_at(bytes: &[u8], at: usize) -> i64
    requires { at + 8 ≤ length bytes.now }
    ensures { result ≡ number_at bytes.now at }
{
    i64::from_le_bytes(bytes_at(bytes, at))
}

// Byte j of a number, the low one first; it has eight.
pub fn byte_of(number: u64, j: usize) -> u8
    requires { j < 8 }
    ensures { result ≡ byte_of number j }
{
    number.to_le_bytes()[j]
}
