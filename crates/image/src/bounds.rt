// The bounds of a table.
ghost use Rattle.std.specs.Prelude.{◌≡◌};
ghost use Rattle.image.specs.Bounds.{is_bounded};

use crate::table::Table;
use scales::tick::valid;

// 'n 0..15, H from 10^9 to 2^50, G 1..360'
const MOST_DEGREE: u32 = 15;

const SHORTEST_LENGTH: i64 = 1_000_000_000;

const LONGEST_LENGTH: i64 = 1_125_899_906_842_624;

const MOST_GRANULES: u32 = 360;

// The most coefficients that a table has.
pub const MOST_COEFFICIENTS: usize = MOST_GRANULES as usize * (MOST_DEGREE as usize + 1);

// Whether a table is within its bounds, those above and 'S and S+GH valid epochs'.
pub fn bounded(table: Table) -> bool
    ensures { result ≡ is_bounded table }
{
    let start = table.start;
    let length = table.length;
    let count = table.count;
    if table.degree > MOST_DEGREE
        || !(SHORTEST_LENGTH..=LONGEST_LENGTH).contains(&length)
        || !(1..=MOST_GRANULES).contains(&count)
        || !valid(start.0)
    {
        return false;
    }
    valid(start.0 + i64::from(count) * length)
}
