// How far two clocks drift apart: what the four steps that are no mere shift add or take off.
//
// TT and TDB run slower than TCG and TCB by L/D, where L/D is L_G = 3484645067 / (5·10^18) and L_B
// = 193814971 / (125·10^14), both reduced. A slow clock loses L/D of the fast clock's ticks, and a
// fast one gains L/E of the slow clock's, with E = D − L. The ticks are counted from a moment at or
// before the range's first tick that is a whole number of D, or of E, before tick 0; so nothing is
// negative.
//
// A share of b, L/D or L/E of it, is one rounded product with a row of numbers: M is L·2^s / D, or
// L·2^s / E, rounded down, which is exact to the tick for every count of ticks that can come (the
// law is `exact_share` of `pieces`, and `proofs/Fractions.antt` tests each row). So nothing is
// divided, and no number is wider than 64 bits.
ghost use Rattle.std.specs.Prelude.{◌≡◌, ◌≤◌, pos, nat_abs, ◌+ℤ◌};
ghost use Rattle.linear.specs.Drift.{Biased, Little, drift_at};

use pieces::share::{Row, share};

// How far a clock has drifted from another: what it loses or gains over so many ticks of the other,
// as their share by a row. They are counted from `bias` ticks before tick 0, and what is lost or
// gained up to tick 0 is known, and taken off again.
#[derive(Clone, Copy, Debug, PartialEq, Eq)]
pub struct Drift {
    row: Row,
    bias: u64,
    known: i64,
}

// What TT loses over ticks of TCG: L·b / D to the nearest, a half to the lesser, since it is taken
// off. The bias is 2·D, over which TT loses 2·L.
pub const TT_LOSES: Drift = Drift {
    row: Row {
        m1: 803_504_446,
        m0: 13_526_876_010_355_116_026,
        by: 28,
    },
    bias: 10_000_000_000_000_000_000,
    known: 6_969_290_134,
};

// What TDB loses over ticks of TCB, likewise, and the 65,500 by which it is behind at tick 0. The
// bias is 480·D, over which TDB loses 480·L.
pub const TDB_LOSES: Drift = Drift {
    row: Row {
        m1: 279_316_809,
        m0: 18_000_619_092_683_907_679,
        by: 22,
    },
    bias: 6_000_000_000_000_000_000,
    known: 93_031_120_580,
};

// What TCG gains over ticks of TT: L·b / E to the nearest. E is odd, so there is no half. The bias
// is 2·E, over which TCG gains 2·L.
pub const TCG_GAINS: Drift = Drift {
    row: Row {
        m1: 803_504_447,
        m0: 5_410_042_278_567_593_985,
        by: 28,
    },
    bias: 9_999_999_993_030_709_866,
    known: 6_969_290_134,
};

// What TCB gains over ticks of TDB, likewise, of TDB + 65,500. The bias is 481·E and those 65,500,
// over 481·E TCB gains 481·L, and what is known is that less the 65,500 by which it is ahead.
pub const TCB_GAINS: Drift = Drift {
    row: Row {
        m1: 279_316_814,
        m0: 5_657_209_425_958_624_105,
        by: 22,
    },
    bias: 6_012_499_906_775_064_449,
    known: 93_224_935_551,
};

impl Drift {
    // The ticks since `bias` ticks before tick 0. The callers' tick is valid.
    fn count(self, tick: i64) -> u64
        requires { Biased tick self.bias }
        ensures { pos result ≡ tick +ℤ pos self.bias }
    {
        self.bias.wrapping_add_signed(tick)
    }

    // What is lost or gained up to a tick, at most 2·10^12 either way.
    pub fn up_to(self, tick: i64) -> i64
        requires count { Biased tick self.bias }
        requires little { Little self }
        ensures exact { result ≡ drift_at self tick }
        ensures little { nat_abs result ≤ 2000000000000 }
    {
        share(self.count(tick), self.row) as i64 - self.known
    }
}
