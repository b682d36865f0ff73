// The ticks of the two scales. 'A tick of TT and a tick of TDB are never added or compared': each
// struct compares its own ticks, and D alone, which is a number of ticks and no tick of a scale,
// leads from one to the other.
ghost use Rattle.std.specs.Prelude.{◌≡◌, ◌+ℤ◌, ◌-ℤ◌};
ghost use Rattle.ephemeris.specs.Asked.{Movable, is_near};

use linear::steps::{Tdb, Tt};

// 'TDB = TT − D'
pub fn tdb_of(tick: Tt, delay: i64) -> Tdb
    requires { Movable tick.0 delay }
    ensures { result.0 ≡ tick.0 -ℤ delay }
{
    Tdb(tick.0 - delay)
}

// The way back from a TDB whose D is known: TT = TDB + D.
pub fn tt_of(tick: Tdb, delay: i64) -> Tt
    requires { Movable tick.0 delay }
    ensures { result.0 ≡ tick.0 +ℤ delay }
{
    Tt(tick.0 + delay)
}

// Whether a TDB is within 7·10^18 either way, so that D can be added to it. A TDB of a table always
// is: its TT is a valid epoch, at most 6·10^18 either way, and D is at most 2^28.
pub fn near(tick: Tdb) -> bool
    ensures { result ≡ is_near tick.0 }
{
    (-7_000_000_000_000_000_000..=7_000_000_000_000_000_000).contains(&tick.0)
}
