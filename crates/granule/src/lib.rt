// One granule of a table: its value at a tick in fixed point, as 01's 'The granule rule' says, and
// the tests 14 to 16 of its coefficients. A granule's coefficients are lent as a slice, c_0 first,
// as many as the degree plus one; a coefficient becomes `Units` where it is taken out.
#![tactic(auto)]

ghost use Rattle.std.specs.Prelude.{◌≡◌, ◌^◌, ◌+ℤ◌, ◌-ℤ◌, ◌*ℤ◌};
ghost use Rattle.numbers.specs.Rounding.{nearest};
ghost use Rattle.granule.specs.Rule.{p_of, u_of, delay_of, value_at};
ghost use Rattle.granule.specs.Tests.{is_small, weight_of, is_light};
ghost use Rattle.granule.specs.Tests.{plain_sum, alternating_sum, is_joined};
ghost use Rattle.granule.specs.Asked.{InGranule, Factors, IsDivisor, Terms, Summable, Evaluable};

use pieces::signed::rounded_product;

// Coefficient units: 1/65536 tick.
#[derive(Clone, Copy, Debug, PartialEq, Eq)]
pub struct Units(pub i64);

// u, '2^30·s rounded': 2^31·place / length by three digits, 13, 13 and 5 bits, of which the last is
// rounded; then 2^30 less. It is a number without units.
fn argument(place: u64, length: u64) -> i64
    requires { InGranule place length }
    ensures { result ≡ u_of (p_of place length) length }
{
    let first = place * 8192;
    let second = first % length * 8192;
    let third = second % length * 64 + length;
    let steps = first / length * 262144 + second / length * 32 + third / (2 * length);
    steps as i64 - 1_073_741_824
}

// 'rounded(u·b/2^29)' and 'rounded(u·b/2^30)', in pieces: u·2^(32 − BITS)·b / 2^32. What u is
// multiplied by may be more than 64 bits hold, so it is handed on as two pieces, which are two
// parts of b.
fn rounded<const BITS: u32>(u: i64, b: Units) -> Units
    requires factors { Factors u b.0 }
    requires bits { IsDivisor BITS }
    ensures { result.0 ≡ nearest (u *ℤ b.0) (2 ^ BITS) }
{
    let high = b.0 >> BITS;
    let low = (b.0 - (high << BITS)) << (32 - BITS);
    Units(rounded_product(u, high, low as u32))
}

// 'c_k + rounded(u·b_(k+1)/2^29) − b_(k+2)', which is b_k, and 'c_0 + rounded(u·b_1/2^30) − b_2',
// which is v.
fn turn<const BITS: u32>(u: i64, c: Units, b1: Units, b2: Units) -> Units
    requires terms { Terms u c.0 b1.0 b2.0 }
    requires bits { IsDivisor BITS }
    ensures { result.0 ≡ c.0 +ℤ nearest (u *ℤ b1.0) (2 ^ BITS) -ℤ b2.0 }
{
    let product = rounded::<BITS>(u, b1);
    Units(c.0 + product.0 - b2.0)
}

// The value v of a granule of `length` ticks at the tick `place` ticks after its start. The caller
// has judged the table: the bounds and test 14 are what keeps every number within 64 bits. b_n is
// c_n, since the two above it are 0; and where c_0 is all, v is c_0. Two turns go together, so that
// no b_k has to be moved; and `left` stands before b1 and b2, which is worth a cycle a round.
pub fn value(coefficients: &[i64], place: u64, length: u64) -> Units
    requires { Evaluable coefficients.now place length }
    ensures { result.0 ≡ value_at coefficients.now place length }
{
    let [first, middle @ .., last] = coefficients else {
        return Units(coefficients[0]);
    };
    let u = argument(place, length);
    let mut left = middle;
    let mut b1 = Units(*last);
    let mut b2 = Units(0);
    while let [rest @ .., lower, upper] = left {
        b2 = turn::<29>(u, Units(*upper), b1, b2);
        b1 = turn::<29>(u, Units(*lower), b2, b1);
        left = rest;
    }
    let [second, ..] = left else {
        return turn::<30>(u, Units(*first), b1, b2);
    };
    let b = turn::<29>(u, Units(*second), b1, b2);
    turn::<30>(u, Units(*first), b, b1)
}

// 'D = v/65536 rounded', in ticks: the half is taken after a shift by 15, so that nothing
// overflows.
pub fn delay(v: Units) -> i64
    ensures { result ≡ delay_of v.0 }
{
    ((v.0 >> 15) + 1) >> 1
}

// Test 14: no coefficient is 'beyond 2^40 either way'.
pub fn small(coefficients: &[i64]) -> bool
    ensures { result ≡ is_small coefficients.now }
{
    coefficients
        .iter()
        .all(|c| c.unsigned_abs() <= 1_099_511_627_776)
}

// 'the sum of k²·|c_k|'. Test 14 comes before 15, so the coefficients are within 2^40, and the sum
// fits.
pub fn weight(coefficients: &[i64]) -> u64
    requires { Summable coefficients.now }
    ensures { result ≡ weight_of coefficients.now }
{
    coefficients
        .iter()
        .enumerate()
        .map(|(k, c)| (k * k) as u64 * c.unsigned_abs())
        .sum()
}

// Test 15: the weight is neither above 2^40 nor above H.
#[tactic(auto, unfolding(crate::specs::Tests::is_light))]
pub fn light(weight: u64, length: u64) -> bool
    ensures { result ≡ is_light weight length }
{
    weight <= 1_099_511_627_776 && weight <= length
}

// The plain sum c_0 + c_1 + c_2 + .., the exact sum at s = 1. It fits where test 14 has passed.
pub fn plain(coefficients: &[i64]) -> Units
    requires { Summable coefficients.now }
    ensures { result.0 ≡ plain_sum coefficients.now }
{
    Units(coefficients.iter().rev().fold(0, |sum, c| c + sum))
}

// The alternating sum c_0 − c_1 + c_2 − .., the exact sum at s = −1. It fits where test 14 has
// passed.
pub fn alternating(coefficients: &[i64]) -> Units
    requires { Summable coefficients.now }
    ensures { result.0 ≡ alternating_sum coefficients.now }
{
    Units(coefficients.iter().rev().fold(0, |sum, c| c - sum))
}

// Test 16: the plain sum of a granule and the alternating sum of the next do not 'differ by over
// 1024 units'.
#[tactic(auto, unfolding(crate::specs::Tests::is_joined))]
pub fn joined(plain: Units, alternating: Units) -> bool
    ensures { result ≡ is_joined plain.0 alternating.0 }
{
    plain.0.abs_diff(alternating.0) <= 1024
}
