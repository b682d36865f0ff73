// The form of a block: which bytes are free, and what the others are. A fixed byte that is wrong is
// test 12's.
#![tactic(auto)]

ghost use Rattle.std.specs.Prelude.{◌≡◌, ◌*◌, ◌+◌, ◌≤◌, ◌<◌, ◌^◌, eqb, length};
ghost use Rattle.words.specs.Words.{block, from};
ghost use Rattle.form.specs.Few.{Few};
ghost use Rattle.form.specs.Form.{head_byte, is_number, granules_in, is_coefficient};
ghost use Rattle.form.specs.Form.{is_free, fixed_byte, is_formed};
ghost use Rattle.numbers.specs.Lowest.{found, every, up_to};
ghost use Rattle.form.specs.Asked.{BodyPlace, FreeRun, Headed, Inside, OtherBlock};
ghost use Rattle.form.specs.Asked.{RightRun, Search, ZeroRun};

use words::{quad_at, word_at};

// 'Block 0: kind 1 .. Others: kind 2'.
const FIRST: u8 = 1;

const OTHER: u8 = 2;

// 'Edition (1, the same in every block)'.
const EDITION: u8 = 1;

// Bytes 0 to 7 of block k, of the given kind and with the given byte 2.
fn head(kind: u8, second: u8, k: u32) -> [u8; 8]
    ensures { result ≡ up_to (head_byte kind second k) 8 }
{
    let [k0, k1, k2, k3] = k.to_le_bytes();
    [kind, EDITION, second, 0, k0, k1, k2, k3]
}

// Whether byte j of block 0 is one of the table's numbers.
fn is_number(j: usize) -> bool
    ensures { result ≡ is_number j }
{
    j == 2 || (8..28).contains(&j)
}

// How many of the `left` bytes from `at` on are known to be zero: words are looked at as long as
// they are zero, then half a word.
fn zeros_from(bytes: &[u8], at: usize, left: usize) -> usize
    requires { at + left ≤ length bytes.now }
    ensures { ZeroRun (from bytes.now at) left result }
{
    let mut zeros = 0;
    for word in bytes[at..at + left].as_chunks().0 {
        if u64::from_le_bytes(*word) != 0 {
            break;
        }
        zeros += 8;
    }
    if 4 <= left - zeros && quad_at(bytes, at + zeros) == 0 {
        return zeros + 4;
    }
    zeros
}

// What the form of a table's blocks goes by: its count G and degree n. The form of block 0 is the
// same for every count and degree, and so it is looked at by 0 and 0, before they are known.
#[derive(Clone, Copy, PartialEq, Eq, Debug)]
pub struct Shape {
    pub count: usize,
    pub degree: usize,
    ghost few: { Few count degree },
}

impl Shape {
    // How many granules block k holds, of a table that has that block: 3, in the last what is left.
    fn held_in(self, k: usize) -> u8
        requires { OtherBlock self.count k }
        ensures { result ≡ granules_in self.count k }
    {
        (self.count - 3 * (k - 1)).min(3) as u8
    }

    // Bytes 0 to 7 of block k above 0.
    fn other_head(self, k: usize) -> [u8; 8]
        requires { OtherBlock self.count k }
        ensures { result ≡ up_to (fixed_byte self.count k) 8 }
    {
        head(OTHER, self.held_in(k), k as u32)
    }

    // Whether byte j of block k above 0 is one of a coefficient.
    fn is_coefficient(self, k: usize, j: usize) -> bool
        requires { BodyPlace self.count k j × (1 ≤ k) }
        ensures { result ≡ is_coefficient self.count self.degree k j }
    {
        if !(8..392).contains(&j) {
            return false;
        }
        let number = (j - 8) / 8;
        3 * (k - 1) + number / 16 < self.count && number % 16 <= self.degree
    }

    // Whether byte j of block k is free.
    pub fn is_free(self, k: usize, j: usize) -> bool
        requires { BodyPlace self.count k j }
        ensures { result ≡ is_free self.count self.degree k j }
    {
        if k == 0 {
            return is_number(j);
        }
        self.is_coefficient(k, j)
    }

    // What byte j of block k is where it is not free.
    pub fn fixed_byte(self, k: usize, j: usize) -> u8
        requires { BodyPlace self.count k j }
        ensures { result ≡ fixed_byte self.count k j }
    {
        if j >= 8 {
            return 0;
        }
        if k == 0 {
            return head(FIRST, 0, 0)[j];
        }
        self.other_head(k)[j]
    }

    // Whether bytes 0 to 7 of block k above 0 are right, all in one word.
    fn head_right(self, bytes: &[u8], k: usize) -> bool
        requires { Headed bytes.now self.count k }
        ensures { result
            ≡ every (λ j. eqb (block bytes.now k j) (fixed_byte self.count k j)) 8 }
    {
        word_at(bytes, k * 512) == u64::from_le_bytes(self.other_head(k))
    }

    // How many bytes from byte j of block k on are known to be free: none where it is fixed. A
    // granule's coefficients are free as a whole.
    fn free_from(self, k: usize, j: usize) -> usize
        requires { BodyPlace self.count k j }
        ensures { FreeRun self.count self.degree k j result }
    {
        if !self.is_free(k, j) {
            return 0;
        }
        if k == 0 {
            return 1;
        }
        8 * (self.degree - (j - 8) / 8 % 16) + 8 - j % 8
    }

    // How many bytes from byte j of block k on are known to be right: none where it is wrong. From
    // byte 8 on every fixed byte is zero.
    fn right_from(self, bytes: &[u8], k: usize, j: usize) -> usize
        requires { Inside bytes.now self.count k j }
        ensures { RightRun self.count self.degree k (block bytes.now k) j result }
    {
        if j == 0 && k != 0 && self.head_right(bytes, k) {
            return 8;
        }
        let free = self.free_from(k, j);
        if free != 0 {
            return free;
        }
        if 8 <= j {
            let zeros = zeros_from(bytes, k * 512 + j, 508 - j);
            if zeros != 0 {
                return zeros;
            }
        }
        if bytes[k * 512 + j] != self.fixed_byte(k, j) {
            return 0;
        }
        1
    }

    // The lowest block below `blocks` that has a fixed byte wrong; those below `first` are known to
    // be right. 'Each test over all blocks before the next': nested loops over blocks and their
    // bytes, a run of right ones a turn, left by a label.
    pub fn lowest_unformed(self, bytes: &[u8], first: usize, blocks: usize) -> Option<usize>
        requires { Search bytes.now self.count self.degree first blocks }
        ensures { result
            ≡ found (λ k. is_formed self.count self.degree k (block bytes.now k)) blocks }
    {
        let mut found = None;
        'blocks: for k in first..blocks {
            let mut j = 0;
            while j < 508 {
                let right = self.right_from(bytes, k, j);
                if right == 0 {
                    found = Some(k);
                    break 'blocks;
                }
                j += right;
            }
        }
        found
    }
}
