// The formula of a TAI tick, and the length of a day.
ghost use Rattle.std.specs.Prelude.{◌≡◌};
ghost use Rattle.utc.specs.Days.{length_by, tai_by};
ghost use Rattle.utc.specs.Asked.{NearReading};

use std::cmp::Ordering;

// The ticks of a second, and of a day of 86,400.
const SECOND: i64 = 1_000_000_000;

pub const DAY: i64 = 86_400 * SECOND;

// 'The day before a rise has 86,401 s, before a fall 86,399', by the seconds of the day and of the
// next.
#[tactic(auto, unfolding(crate::specs::Days::length_by))]
pub fn length_by(here: i64, next: i64) -> i64
    ensures { result ≡ length_by here next }
{
    match next.cmp(&here) {
        Ordering::Greater => DAY + SECOND,
        Ordering::Less => DAY - SECOND,
        Ordering::Equal => DAY,
    }
}

// 'TAI tick = (day − 43144)·86,400·10^9 + ticks in day + seconds·10^9 − 32,184,000,000.'
pub fn tai_by(seconds: i64, day: i64, ticks: i64) -> i64
    requires { NearReading seconds day ticks }
    ensures { result ≡ tai_by seconds day ticks }
{
    (day - 43_144) * DAY + ticks + seconds * SECOND - 32_184_000_000
}
