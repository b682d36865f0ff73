// The shift of a number in pieces, of either sign.
ghost use Rattle.std.specs.Prelude.{◌≡◌, ◌^◌, ◌+◌};
ghost use Rattle.numbers.specs.Rounding.{floor_div};
ghost use Rattle.pieces.specs.Pieces.{signed};
ghost use Rattle.pieces.specs.Asked.{Shiftable};

use crate::halves::joined;

// p / 2^(32 + by), rounded down; so p / 2^(32 + by) to the nearest, a half to the greater, of a p
// that was made with 2^(31 + by) more. Only the middle two pieces are read, with a sign: the top
// one is but that.
pub fn shifted(p: [u32; 4], by: u64) -> i64
    requires { Shiftable p by }
    ensures { result ≡ floor_div (signed p) (2 ^ (32 + by)) }
{
    joined(p[1], p[2]).cast_signed() >> by
}
