// What a path that crosses goes over: a table that has been judged and accepted, with its
// coefficients. A path that doesn't cross needs none.
ghost use Rattle.std.specs.Prelude.{◌≡◌};
ghost use Rattle.walk.specs.Inner.{Held};
ghost use Rattle.walk.specs.Walk.{to_tdb, to_tt};

use ephemeris::over::{OverTdb, OverTt};
use image::table::Table;
use linear::steps::{Tdb, Tt};
use scales::answer::{Epoch, Outside};

// The table, if there is one, and its coefficients, else none. That it was accepted with them keeps
// every number within 64 bits.
#[derive(Clone, Copy)]
pub struct Kept<'a> {
    pub table: Option<Table>,
    pub coefficients: &'a [i64],
    pub ghost held: { Held table coefficients.now },
}

impl Kept<'_> {
    // TT to TDB.
    pub fn to_tdb(self, epoch: Epoch) -> Result<Epoch, Outside>
        ensures { result ≡ to_tdb self.entry.table self.entry.coefficients.now epoch.tick }
    {
        match self.table {
            None => Err(Outside::Table),
            Some(table) => OverTt(Tt(epoch.tick)).to_tdb(table, self.coefficients),
        }
    }

    // TDB to TT, likewise.
    pub fn to_tt(self, epoch: Epoch) -> Result<Epoch, Outside>
        ensures { result ≡ to_tt self.entry.table self.entry.coefficients.now epoch.tick }
    {
        match self.table {
            None => Err(Outside::Table),
            Some(table) => OverTdb(Tdb(epoch.tick)).to_tt(table, self.coefficients),
        }
    }
}
