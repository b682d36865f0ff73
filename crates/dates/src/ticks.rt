// Days and seconds, counted so finely that the sum of a date's parts is rounded once and nothing is
// lost before. A share is a 65,536th of a tick. A unit of odd · 2^twos ticks, a day or a second,
// has 2^(16 + twos) pieces, and a piece has `odd` shares. What is less than a share is cut down:
// beside a part of whole pieces that is where the sum is cut, and a date without such a part is
// outside the range.
ghost use Rattle.std.specs.Prelude.{◌≡◌, ◌+◌, ◌*◌, ◌^◌, ◌<◌, ◌≤◌, T, pos, nat_abs, ◌*ℤ◌};
ghost use Rattle.std.specs.Float.Ieee.Scale.{finite};
ghost use Rattle.numbers.specs.Rounding.{floor_div};
ghost use Rattle.dates.specs.Doubles.{denominator, numerator};
ghost use Rattle.dates.specs.Readings.{most_days};
ghost use Rattle.dates.specs.Inner.{Counted, CountedSum, Factored, Far, FarPieces, Pieces};
ghost use Rattle.dates.specs.Inner.{Reach, Readable, Rounded, SpanWithin, few_units, left_by};
ghost use Rattle.dates.specs.Inner.{worth};

use crate::double::take_apart;
use crate::span::Span;

// A day or a second: odd · 2^twos ticks, which are `per`. `most` of them are 100,000 days.
#[derive(Clone, Copy)]
pub struct Unit {
    pub odd: u64,
    pub twos: u64,
    pub per: i64,
    pub most: i64,
    ghost factored: { Factored odd twos },
    ghost reach: { Reach per most },
}

// The last so many digits of z · 2^more, never negative.
fn last_digits(z: i64, more: u64, many: u64) -> i64
    requires shift { more ≤ 63 }
    requires few { many ≤ 62 }
    ensures { result ≡ left_by (2 ^ many) (pos (2 ^ more) *ℤ z) }
{
    let mask: i64 = (1 << many) - 1;
    (z << more) & mask
}

// Less than one either way, cut down. -0.0 is not below zero.
fn cut_tiny(x: f64) -> i64
    requires finitely { T (finite x) }
    requires small { nat_abs (numerator x) < denominator x }
    ensures { result ≡ floor_div (numerator x) (denominator x) }
{
    if x < 0.0 {
        return -1;
    }
    0
}

impl Unit {
    pub const DAY: Self = Unit {
        odd: 1_318_359_375,
        twos: 16,
        per: 86_400_000_000_000,
        most: 100_000,
    };

    pub const SECOND: Self = Unit {
        odd: 1_953_125,
        twos: 9,
        per: 1_000_000_000,
        most: 8_640_000_000,
    };

    // odd · part / 2^(31 + by), cut down. The product is wider than 64 bits, so the part is split
    // at 2^31, and its low half's product cut there.
    fn cut_product(self, part: i64, by: u64) -> i64
        requires { by ≤ 62 }
        ensures { result ≡ floor_div (pos self.odd *ℤ part) (2 ^ (31 + by)) }
    {
        let factor: i64 = self.odd as i64;
        let high: i64 = part >> 31;
        let low: i64 = part - 2_147_483_648 * high;
        (factor * high + ((factor * low) >> 31)) >> by
    }

    // digits · 2^more, each a 2^31st of a piece. So few fit 64 bits.
    fn pieces_within(self, digits: i64, more: u64) -> Span
        requires few { nat_abs digits < 2 ^ 53 }
        requires shift { more ≤ 10 }
        ensures { Pieces self.odd (pos (2 ^ more) *ℤ digits) result }
    {
        let all: i64 = digits << more;
        Span {
            units: all >> 31,
            rest: self.cut_product(last_digits(all, 0, 31), 0),
        }
    }

    // The same for more digits, as many as a reading has; `pieces_within` is the shorter way that a
    // part of a day takes.
    fn pieces_over(self, digits: i64, more: u64) -> Span
        requires few { nat_abs digits < 2 ^ 53 }
        requires shift { more ≤ 37 }
        ensures { Pieces self.odd (pos (2 ^ more) *ℤ digits) result }
    {
        Span {
            units: (digits << 6) >> (37 - more),
            rest: self.cut_product(last_digits(digits, more, 31), 0),
        }
    }

    // x units of odd · 2^twos ticks, in pieces and shares. The callers' x passed refusals 2 and 3.
    pub fn count_of(self, x: f64) -> Span
        requires { Readable (few_units self.twos) x }
        ensures { Counted self.odd self.twos x result }
    {
        let parts = take_apart(x);
        let digits = parts.digits;
        let places: u64 = 1075 - parts.exponent;
        // less than a piece, and past 116 places less than a share
        if places > 47 + self.twos {
            if places > 116 {
                return Span {
                    units: 0,
                    rest: cut_tiny(x),
                };
            }
            let rest = self.cut_product(digits, places - 47 - self.twos);
            return Span { units: 0, rest };
        }
        if places < 37 + self.twos {
            return self.pieces_over(digits, 47 + self.twos - places);
        }
        self.pieces_within(digits, 47 + self.twos - places)
    }

    // Pieces and shares to the nearest tick, as units of odd · 2^twos ticks, and ticks. Half a tick
    // is added and the sum cut down, also below zero: so an exact half goes to the greater.
    pub fn rounded(self, count: Span) -> Span
        requires { SpanWithin (2 ^ 60) (2 ^ 54) count }
        ensures { Rounded (self.odd * 2 ^ self.twos) (worth (pos self.odd) count) result }
    {
        let pieces = count.units;
        let part = last_digits(pieces, 0, 16 + self.twos);
        let shares: i64 = (self.odd as i64) * part + count.rest;
        Span {
            units: pieces >> (16 + self.twos),
            rest: (shares + 32_768) >> 16,
        }
    }
}

// 2^20 days and more are whole pieces. The caller's are such, and its sign is not set.
fn far_pieces(x: f64) -> i64
    requires { Far x }
    ensures { FarPieces x result }
{
    let bits: u64 = f64::to_bits(x);
    let digits: u64 = (bits & 0xf_ffff_ffff_ffff) + 0x10_0000_0000_0000;
    (digits as i64) << ((bits >> 52) - 1043)
}

// Both parts of a date, in pieces and shares. A first part of 2^20 days or more, which is what
// hosts send, is a shift.
pub fn sum_of_days(first: f64, second: f64) -> Span
    requires first { Readable most_days first }
    requires second { Readable most_days second }
    ensures { CountedSum first second result }
{
    let near = Unit::DAY.count_of(second);
    if first >= 1_048_576.0 {
        return Span {
            units: far_pieces(first) + near.units,
            rest: near.rest,
        };
    }
    Unit::DAY.count_of(first).plus(near)
}
