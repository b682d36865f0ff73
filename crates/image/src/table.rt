// A table's own numbers, and those that bytes hold.
ghost use Rattle.std.specs.Prelude.{◌≡◌, ◌≤◌, length};
ghost use Rattle.image.specs.Image.{table_of};

use linear::steps::Tt;
use words::{number_at, quad_at};

// 'A table has a first tick S (TT), a granule length H ticks, a count G and a degree n'.
#[derive(Clone, Copy, Debug, PartialEq, Eq)]
pub struct Table {
    pub start: Tt,
    pub length: i64,
    pub count: u32,
    pub degree: u32,
}

// The numbers in block 0.
pub fn table_of(bytes: &[u8]) -> Table
    requires { 512 ≤ length bytes.now }
    ensures { result ≡ table_of bytes.now }
{
    Table {
        start: Tt(number_at(bytes, 8)),
        length: number_at(bytes, 16),
        count: quad_at(bytes, 24),
        degree: u32::from(bytes[2]),
    }
}
