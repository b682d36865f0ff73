// The rounded product of a linear step: b·M / 2^s to the nearest, a half to the greater, with an M
// of 94 bits. With M = L·2^s / D rounded down it is b·L / D to the nearest, with no division
// (`proofs/Exact.antt` says why).
ghost use Rattle.std.specs.Prelude.{◌≡◌, ◌+◌, ◌^◌, ◌≤◌};
ghost use Rattle.pieces.specs.Pieces.{value};
ghost use Rattle.pieces.specs.Rows.{share_of};
ghost use Rattle.pieces.specs.Asked.{Narrow};

use crate::halves::halves;
use crate::product::{add, multiply, upper};
use crate::shift::shifted;

// M = m1·2^64 + m0, and s = 96 + by.
#[derive(Clone, Copy, Debug, PartialEq, Eq)]
pub struct Row {
    pub m1: u64,
    pub m0: u64,
    pub by: u64,
}

// 2^(95 + by), half of 2^s. The callers' rows are literals.
fn half_unit(by: u64) -> [u32; 4]
    requires { by ≤ 32 }
    ensures { value result ≡ 2 ^ (95 + by) }
{
    let (low, high) = halves(1 << (31 + by));
    [0, 0, low, high]
}

// The half is added to the low product, which has room for it, and what then stands in its upper
// half goes in with the high one: so that nothing is left to add to the pieces that are shifted.
pub fn share(b: u64, row: Row) -> u64
    requires { Narrow row }
    ensures { result ≡ share_of row b }
{
    let low = add(multiply(b, row.m0, 0), half_unit(row.by));
    let high = multiply(b, row.m1, upper(low));
    shifted(high, row.by) as u64
}
