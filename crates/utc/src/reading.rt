// A UTC reading, 'a Modified Julian Day and ticks within the day', read as a TAI tick.
ghost use Rattle.std.specs.Prelude.{◌≡◌, true};
ghost use Rattle.utc.specs.Leaps.{is_list_right};
ghost use Rattle.utc.specs.Readings.{utc_refused, utc_read};

use crate::entries::{FIRST_DAY, Leaps};
use crate::judged::Judged;
use crate::tai::{length_by, tai_by};
use scales::refusal::Refusal;
use scales::tick::valid;

// 100,000 days after 43144. A later day is out of the range, and up to here nothing overflows.
const LAST_DAY: i64 = 143_144;

fn no_tick(number: u32) -> Result<i64, Refusal>
    ensures { result ≡ utc_refused number }
{
    Err(Refusal { number, place: 0 })
}

// Reads a UTC reading over a list that is right, which the caller has judged by refusal 7.
pub fn read(leaps: &[i64], day: i64, ticks: i64) -> Result<i64, Refusal>
    requires { is_list_right leaps.now ≡ true }
    ensures { result ≡ utc_read leaps.now day ticks }
{
    if day < FIRST_DAY || ticks < 0 {
        return no_tick(5);
    }
    let list = Judged {
        leaps: Leaps(leaps),
    };
    let entry = list.entry_on(day);
    let seconds = list.leaps.seconds(entry);
    if ticks >= length_by(seconds, list.seconds_after(day, entry)) {
        return no_tick(5);
    }
    if day > LAST_DAY {
        return no_tick(4);
    }
    let tick = tai_by(seconds, day, ticks);
    if valid(tick) {
        return Ok(tick);
    }
    no_tick(4)
}
