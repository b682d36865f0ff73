// A tick, written as a date.
ghost use Rattle.std.specs.Prelude.{◌≡◌, ◌+◌, ◌*◌, ◌<◌, ◌≤◌, pos, nat_abs};
ghost use Rattle.std.specs.Float.{binary64};
ghost use Rattle.std.specs.Float.Ieee.{div, of_int};
ghost use Rattle.scales.specs.Tick.{furthest};
ghost use Rattle.dates.specs.Ticks.{day_ticks};
ghost use Rattle.dates.specs.Written.{written_of};
ghost use Rattle.dates.specs.Inner.{Since};

use crate::reading::Date;
use scales::refusal::Refusal;
use scales::tick::valid;

const DAY: u64 = 86_400_000_000_000;

// The ticks since 70,000 days before JD 2443144.5, which is before every valid tick; the caller's
// is valid.
fn since_first(tick: i64) -> u64
    requires { nat_abs tick ≤ furthest }
    ensures { Since tick result }
{
    if tick < 0 {
        return (tick + 6_048_000_032_184_000_000) as u64;
    }
    (tick as u64) + 6_048_000_032_184_000_000
}

// The Julian date so many days after 2373144.5, which is half of 4,746,289. The caller's days are a
// valid tick's. In 86,400ths both parts of a date are divisions, which a processor can do at once;
// a half is a product to a compiler, for which a 32-bit box would need a helper.
fn julian_date(days: u64) -> f64
    requires { days ≤ 140000 }
    ensures { result
        ≡ div binary64 (of_int binary64 (pos (2 * days + 4746289))) (of_int binary64 (pos 2)) }
{
    ((86_400 * days + 205_039_684_800) as f64) / 86_400.0
}

// 'the ticks since then divided by 86,400,000,000,000 as one rounded double division': less than a
// day's ticks are cast exactly.
fn part_of_day(ticks: u64) -> f64
    requires { ticks < day_ticks }
    ensures { result
        ≡ div binary64 (of_int binary64 (pos ticks)) (of_int binary64 (pos day_ticks)) }
{
    (ticks as f64) / 86_400_000_000_000.0
}

// Writes a tick as a date: the last Julian date ending in .5 not after it, and the part of a day
// since then, in [0, 1); or refusal 4.
pub fn write_date(tick: i64) -> Result<Date, Refusal>
    ensures { result ≡ written_of tick }
{
    if !valid(tick) {
        return Err(Refusal {
            number: 4,
            place: 0,
        });
    }
    let since = since_first(tick);
    Ok(Date {
        first: julian_date(since / DAY),
        second: part_of_day(since % DAY),
    })
}
