// 'Check: bytes 0..507 as 254 words of 16 bits, w_0 first.'
ghost use Rattle.std.specs.Prelude.{◌≡◌, ◌+◌, ◌/◌, ◌≤◌, length};
ghost use Rattle.words.specs.Words.{block, from};
ghost use Rattle.words.specs.Check.{check_a, check_b, is_checked};
ghost use Rattle.numbers.specs.Lowest.{found};

use crate::pair_at;

// The two check words of a block.
#[derive(Clone, Copy, PartialEq, Eq, Debug)]
pub struct Check {
    pub a: u16,
    pub b: u16,
}

// 'A = sum of w_i mod 65535, B = sum of (254−i)·w_i mod 65535', of the block that starts at `at`:
// two words a turn, both with the weight of the first, and the sum of the second ones is taken off
// at the end.
pub fn check_of(bytes: &[u8], at: usize) -> Check
    requires { at + 512 ≤ length bytes.now }
    ensures { (result.a ≡ check_a (from bytes.now at))
        × (result.b ≡ check_b (from bytes.now at)) }
{
    let mut plain: u32 = 0;
    let mut second: u32 = 0;
    let mut weighted: u32 = 0;
    let mut weight: u32 = 254;
    let (pairs, _) = bytes[at..at + 508].as_chunks();
    for pair in pairs {
        let two = u32::from_le_bytes(*pair);
        let low = two % 65_536;
        let high = two / 65_536;
        plain += low + high;
        second += high;
        weighted += weight * (low + high);
        weight -= 2;
    }
    Check {
        a: (plain % 65_535) as u16,
        b: ((weighted - second) % 65_535) as u16,
    }
}

// 'Bytes 508..509 hold A, 510..511 hold B.'
fn check_right(bytes: &[u8], at: usize) -> bool
    requires { at + 512 ≤ length bytes.now }
    ensures { result ≡ is_checked (from bytes.now at) }
{
    let held = Check {
        a: pair_at(bytes, at + 508),
        b: pair_at(bytes, at + 510),
    };
    held == check_of(bytes, at)
}

// The lowest block whose check is wrong.
pub fn lowest_unchecked(bytes: &[u8]) -> Option<usize>
    ensures { result
        ≡ found (λ k. is_checked (block bytes.now k)) (length bytes.now / 512) }
{
    for k in 0..bytes.len() / 512 {
        if !check_right(bytes, k * 512) {
            return Some(k);
        }
    }
    None
}
