// A TAI tick, written as UTC.
ghost use Rattle.std.specs.Prelude.{◌≡◌};
ghost use Rattle.utc.specs.Readings.{utc_written};
ghost use Rattle.utc.specs.Asked.{ToWrite, Writable, latest_day};

use crate::entries::{FIRST_DAY, Leaps};
use crate::judged::Judged;
use crate::tai::DAY;
use scales::refusal::Refusal;

// 'a Modified Julian Day and ticks within the day'
#[derive(Clone, Copy, Debug, PartialEq, Eq)]
pub struct Utc {
    pub day: i64,
    pub ticks: i64,
}

// The TAI tick of day 41317, ticks 0.
const FIRST_TICK: i64 = -157_852_822_184_000_000;

// The last day on which a tick can be: its day where TAI−UTC is −53 s, the least to which 64
// entries come. It is counted from day 41317, so that nothing is negative; by −53 s that day begins
// 63 s before `FIRST_TICK`.
fn latest_day(tick: i64) -> i64
    requires { Writable tick }
    ensures { result ≡ latest_day tick }
{
    let since = (tick + 157_852_885_184_000_000) as u64;
    FIRST_DAY + (since / DAY as u64) as i64
}

// Writes a valid TAI tick as UTC, over a list that is right, which the caller has judged by refusal
// 7. TAI−UTC moves by less than 127 s, so a tick is on the last day on which it can be, or on the
// one before.
#[tactic(auto, using(crate::proofs::Counted::early))]
pub fn write(leaps: &[i64], tick: i64) -> Result<Utc, Refusal>
    requires { ToWrite leaps.now tick }
    ensures { result ≡ utc_written leaps.now tick }
{
    if tick < FIRST_TICK {
        return Err(Refusal {
            number: 5,
            place: 0,
        });
    }
    let list = Judged {
        leaps: Leaps(leaps),
    };
    let day = latest_day(tick);
    let start = list.day_start(day);
    if start <= tick {
        return Ok(Utc {
            day,
            ticks: tick - start,
        });
    }
    let before = day - 1;
    let start = list.day_start(before);
    Ok(Utc {
        day: before,
        ticks: tick - start,
    })
}
