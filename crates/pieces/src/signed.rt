// The rounded product of the granule, of signed numbers: its pieces are in two's complement.
ghost use Rattle.std.specs.Prelude.{◌≡◌, ◌^◌, pos, ◌+ℤ◌, ◌-ℤ◌, ◌*ℤ◌};
ghost use Rattle.numbers.specs.Rounding.{floor_div, nearest};
ghost use Rattle.pieces.specs.Pieces.{base, signed};
ghost use Rattle.pieces.specs.Asked.{SignedColumn, Factors};

use crate::halves::halves;
use crate::shift::shifted;

// What stands above the low piece of z.
fn above(z: i64) -> i64
    ensures { result ≡ floor_div z base }
{
    z >> 32
}

// The low piece of z.
fn piece(z: i64) -> u32
    ensures { pos result ≡ z -ℤ pos base *ℤ floor_div z base }
{
    halves(z.cast_unsigned()).0
}

// A factor times a piece, signed or not, and little more: std's `carrying_mul_add` is of unsigned
// numbers alone.
fn column(x: i64, y: i64, more: i64) -> i64
    requires { SignedColumn x y more }
    ensures { result ≡ x *ℤ y +ℤ more }
{
    x * y + more
}

// x·(high·2^32 + low) and an addend, whole.
fn multiply(x: i64, high: i64, low: u32, addend: i64) -> [u32; 4]
    requires { Factors x high addend }
    ensures { signed result ≡ x *ℤ (pos low +ℤ pos base *ℤ high) +ℤ addend }
{
    let lower = column(x, i64::from(low), addend);
    let upper = column(x, high, above(lower));
    let over = above(upper);
    [piece(lower), piece(upper), piece(over), piece(above(over))]
}

// u·(high·2^32 + low) / 2^32 to the nearest, a half to the greater. The other factor comes in two
// pieces, since the callers' may have more than 64 bits.
pub fn rounded_product(u: i64, high: i64, low: u32) -> i64
    requires { Factors u high (pos 2147483648) }
    ensures { result ≡ nearest (u *ℤ (pos low +ℤ pos base *ℤ high)) (2 ^ 32) }
{
    shifted(multiply(u, high, low, 2_147_483_648), 0)
}
