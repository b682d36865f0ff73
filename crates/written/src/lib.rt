// A conversion into UTC: 'UTC is code 7 for readings and written readings only'. It answers a
// written reading, where the desk's other conversions answer a tick.
#![tactic(auto)]

ghost use Rattle.std.specs.Prelude.{◌≡◌};
ghost use Rattle.written.specs.Written.{write_utc_of};

use dates::reading::Reading;
use desk::conversion::convert_into;
use scales::refusal::Refusal;
use scales::scale::Purpose;
use utc::writing::{Utc, write};

// The written reading, and how many steps were walked to its TAI tick.
#[derive(Clone, Copy, Debug, PartialEq, Eq)]
pub struct Written {
    pub utc: Utc,
    pub steps: u32,
}

// Converts a reading of any kind in the scale of the first code, over the table that the bytes
// hold, and writes what it comes to as UTC over the list of leap seconds; or tells the refusal.
pub fn write_utc(
    from: u32,
    to: u32,
    reading: Reading,
    leaps: &[i64],
    table: &[u8],
) -> Result<Written, Refusal>
    ensures { result ≡ write_utc_of from to reading leaps.now table.now }
{
    let converted = convert_into(Purpose::Utc, from, to, reading, leaps, table)?;
    let utc = write(leaps, converted.epoch.tick)?;
    Ok(Written {
        utc,
        steps: converted.steps,
    })
}
