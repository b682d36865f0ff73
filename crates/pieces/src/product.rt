// A whole product of two numbers of 64 bits, a sum, and the upper half.
ghost use Rattle.std.specs.Prelude.{◌≡◌, ◌^◌, ◌+◌, ◌*◌, ◌/◌, ◌%◌};
ghost use Rattle.pieces.specs.Pieces.{base, value};

use crate::halves::{halves, joined};

// x·y and an addend, whole. A column is a product of two pieces and two pieces more, of which the
// upper half is carried: at most (2^32 − 1)² + 2·(2^32 − 1), which is 2^64 − 1. The addend goes in
// with the low products, where there is room for it. (A loop over the two rows would carry as many
// names as the four columns have.)
pub fn multiply(x: u64, y: u64, addend: u64) -> [u32; 4]
    ensures { value result ≡ x * y + addend }
{
    let (x0, x1) = halves(x);
    let (y0, y1) = halves(y);
    let (a0, a1) = halves(addend);
    let (low, low_carry) = x0.carrying_mul_add(y0, 0, a0);
    let (mid, mid_carry) = x1.carrying_mul_add(y0, low_carry, a1);
    let (side, side_carry) = x0.carrying_mul_add(y1, 0, mid);
    let (high, top) = x1.carrying_mul_add(y1, side_carry, mid_carry);
    [low, side, high, top]
}

// p + q, piece by piece. What would not fit four pieces is lost.
pub fn add(p: [u32; 4], q: [u32; 4]) -> [u32; 4]
    ensures { value result ≡ (value p + value q) % base ^ 4 }
{
    let mut sum = [0; 4];
    let mut carry = false;
    // One index, since it goes over three arrays.
    for i in 0..4 {
        (sum[i], carry) = p[i].carrying_add(q[i], carry);
    }
    sum
}

// p / 2^64, rounded down: the upper two pieces.
pub fn upper(p: [u32; 4]) -> u64
    ensures { result ≡ value p / 2 ^ 64 }
{
    joined(p[2], p[3])
}
