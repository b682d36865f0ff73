// 'TT from TDB: the earliest tick of the table whose TDB is at or after the one asked.' D hardly
// moves, so asked + D closes in on it: most often the table is evaluated three times. It never is
// more than six times, two for closing in and four for settling, whatever the table.
ghost use Rattle.std.specs.Prelude.{◌≡◌, ◌≤◌, nat_abs, ◌+ℤ◌, ◌-ℤ◌};
ghost use Rattle.ephemeris.specs.Table.{S, last_place, earliest_place, is_covered};
ghost use Rattle.ephemeris.specs.Asked.{Movable, furthest_tdb, held_inside, ThisOrBefore, FromHere};

use crate::places::Opened;
use crate::tick::tt_of;
use linear::steps::Tdb;

impl Opened<'_> {
    // The place whose TDB would be the asked if D were `delay` there: that of the TT which asked +
    // delay is, held inside the table.
    fn pointed(&self, asked: Tdb, delay: i64) -> u64
        requires { Movable asked.0 delay }
        ensures { result ≡ held_inside (asked.0 +ℤ delay -ℤ S self.now.table)
            (last_place self.now.table) }
    {
        let tick = tt_of(asked, delay);
        if self.inside(tick) {
            return self.place_of(tick);
        }
        if tick < self.table.start {
            return 0;
        }
        self.last_place()
    }

    // One look decides between a place and the one before.
    #[tactic(auto, using(crate::proofs::Search::is_this, crate::proofs::Search::is_before))]
    fn this_or_before(&self, asked: Tdb, place: u64) -> u64
        requires { ThisOrBefore self.now.table self.now.coefficients.now asked.0 place }
        ensures { result ≡ earliest_place self.now.table self.now.coefficients.now asked.0 }
    {
        if place == 0 {
            return 0;
        }
        if self.tdb_at(place - 1) < asked {
            return place;
        }
        place - 1
    }

    // Up from a place to the earliest tick, which is there or at most three ticks on.
    fn climb(&self, asked: Tdb, from: u64) -> u64
        requires { FromHere self.now.table self.now.coefficients.now asked.0 from }
        ensures { result ≡ earliest_place self.now.table self.now.coefficients.now asked.0 }
    {
        let last = self.last_place();
        for place in from..last {
            if self.tdb_at(place) >= asked {
                return place;
            }
        }
        last
    }

    // The place of the earliest tick whose TDB is at or after the asked; the last place where there
    // is none. Where asked + D leads to the same place again, the earliest tick is there or one
    // before. Otherwise two turns have led to at most one tick after it and two before.
    pub fn earliest_place(&self, asked: Tdb) -> u64
        requires { nat_abs asked.0 ≤ furthest_tdb }
        ensures { result ≡ earliest_place self.now.table self.now.coefficients.now asked.0 }
    {
        let mut place = self.pointed(asked, 0);
        for _ in 0..2_u64 {
            let delay = self.delay_at(place);
            let next = self.pointed(asked, delay);
            if next == place {
                return self.this_or_before(asked, place);
            }
            place = next;
        }
        self.climb(asked, place.saturating_sub(1))
    }

    // Whether the asked is neither 'before the TDB of the first tick' nor 'after that of the last'.
    // Only at an end is there anything to look at: elsewhere the earliest tick has reached the
    // asked, and the one before it has not.
    pub fn covered(&self, asked: Tdb, place: u64) -> bool
        requires { place ≡ earliest_place self.now.table self.now.coefficients.now asked.0 }
        ensures { result ≡ is_covered self.now.table self.now.coefficients.now asked.0 }
    {
        if place == 0 {
            return self.tdb_at(0) <= asked;
        }
        let end = self.last_place();
        if place == end {
            return asked <= self.tdb_at(end);
        }
        true
    }
}
