// The step between TT and TDB over an accepted table, as methods of one struct a scale: from a tick
// in its struct to an epoch of the other scale.
ghost use Rattle.std.specs.Prelude.{◌≡◌};
ghost use Rattle.ephemeris.specs.Accepted.{Accepted};
ghost use Rattle.ephemeris.specs.Steps.{tdb_step, tt_step};

use crate::places::Opened;
use crate::tick::near;
use image::table::Table;
use linear::steps::{Tdb, Tt};
use scales::answer::{Epoch, Outside, keep};
use scales::scale::Scale;

// A tick of TT, over a table. It and `OverTdb` are two structs, since a scale has one of its own,
// and their steps go opposite ways.
#[derive(Clone, Copy)]
pub struct OverTt(pub Tt);

// A tick of TDB, over a table.
#[derive(Clone, Copy)]
pub struct OverTdb(pub Tdb);

impl OverTt {
    // 'TDB = TT − D', in ticks; '6 before 4'.
    pub fn to_tdb(self, table: Table, coefficients: &[i64]) -> Result<Epoch, Outside>
        requires { Accepted table coefficients.now }
        ensures { result ≡ tdb_step table coefficients.now self.0.0 }
    {
        let tick = self.0;
        let opened = Opened {
            table,
            coefficients,
        };
        if !opened.inside(tick) {
            return Err(Outside::Table);
        }
        let tdb = opened.tdb_at(opened.place_of(tick));
        keep(Scale::Tdb, tdb.0)
    }
}

impl OverTdb {
    // 'TT from TDB: the earliest tick of the table whose TDB is at or after the one asked', in
    // ticks, or 6. A TDB that is further than any table's is refused at once, so that nothing
    // overflows.
    pub fn to_tt(self, table: Table, coefficients: &[i64]) -> Result<Epoch, Outside>
        requires { Accepted table coefficients.now }
        ensures { result ≡ tt_step table coefficients.now self.0.0 }
    {
        let asked = self.0;
        if !near(asked) {
            return Err(Outside::Table);
        }
        let opened = Opened {
            table,
            coefficients,
        };
        let place = opened.earliest_place(asked);
        if opened.covered(asked, place) {
            let tick = opened.tick_at(place);
            return Ok(Epoch {
                scale: Scale::Tt,
                tick: tick.0,
            });
        }
        Err(Outside::Table)
    }
}
