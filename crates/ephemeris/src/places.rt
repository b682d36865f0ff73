// A table opened to its ticks. The tick S + i has the place i, from 0 to GH, and at each place
// there are D and TDB.
ghost use Rattle.std.specs.Prelude.{◌≡◌, true, ◌≤◌};
ghost use Rattle.ephemeris.specs.Table.{last_place, tick_at, is_inside, place_of, granule_of};
ghost use Rattle.ephemeris.specs.Table.{table_delay, tdb_at};
ghost use Rattle.ephemeris.specs.Accepted.{Accepted};

use crate::tick::tdb_of;
use granule::{delay, value};
use image::table::Table;
use linear::steps::{Tdb, Tt};

// An accepted table: its own numbers, by value, and its G·(n+1) coefficients as one lent list,
// granule by granule, c_0 first.
#[derive(Clone, Copy)]
pub struct Opened<'a> {
    pub table: Table,
    pub coefficients: &'a [i64],
    ghost accepted: { Accepted table coefficients.now },
}

impl Opened<'_> {
    // The place of 'the very last tick S+GH'.
    pub fn last_place(&self) -> u64
        ensures { result ≡ last_place self.now.table }
    {
        self.table.count as u64 * (self.table.length as u64)
    }

    // The tick at a place, S + i.
    pub fn tick_at(&self, place: u64) -> Tt
        requires { place ≤ last_place self.now.table }
        ensures { result.0 ≡ tick_at self.now.table place }
    {
        Tt(self.table.start.0 + place as i64)
    }

    // Whether a tick is one of the table's, 'the very last tick S+GH' too.
    pub fn inside(&self, tick: Tt) -> bool
        ensures { result ≡ is_inside self.now.table tick.0 }
    {
        let last = self.tick_at(self.last_place());
        self.table.start <= tick && tick <= last
    }

    // The place of a tick, t − S.
    pub fn place_of(&self, tick: Tt) -> u64
        requires { is_inside self.now.table tick.0 ≡ true }
        ensures { result ≡ place_of self.now.table tick.0 }
    {
        (tick.0 - self.table.start.0) as u64
    }

    // 'Granule g covers S+gH up to the tick before S+(g+1)H; the very last tick S+GH belongs to the
    // last granule.'
    fn granule_of(&self, place: u64) -> u64
        ensures { result ≡ granule_of self.now.table place }
    {
        let g = place / (self.table.length as u64);
        g.min(self.table.count as u64 - 1)
    }

    // D in ticks.
    pub fn delay_at(&self, place: u64) -> i64
        requires { place ≤ last_place self.now.table }
        ensures { result ≡ table_delay self.now.table self.now.coefficients.now place }
    {
        let g = self.granule_of(place);
        let length = self.table.length as u64;
        let width = self.table.degree as usize + 1;
        let from = g as usize * width;
        let part = &self.coefficients[from..from + width];
        let v = value(part, place - g * length, length);
        delay(v)
    }

    // 'TDB = TT − D'
    pub fn tdb_at(&self, place: u64) -> Tdb
        requires { place ≤ last_place self.now.table }
        ensures { result.0 ≡ tdb_at self.now.table self.now.coefficients.now place }
    {
        let tick = self.tick_at(place);
        let delay = self.delay_at(place);
        tdb_of(tick, delay)
    }
}
