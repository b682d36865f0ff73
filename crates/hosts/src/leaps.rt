// UTC over a lent list of leap seconds: a reading converted, and a tick written. The list is flat,
// pairs of first day and TAI−UTC in seconds.
ghost use Rattle.std.specs.Prelude.{◌≡◌};
ghost use Rattle.dates.specs.declared.reading.Reading.TheVariants.{Ticks, Utc};
ghost use Rattle.desk.specs.Conversion.{convert_of};
ghost use Rattle.written.specs.Written.{write_utc_of};
ghost use Rattle.hosts.specs.Conversions.{converted_answer};
ghost use Rattle.hosts.specs.Utc.{utc_answer};

use crate::answers::{Answer, converted_answer};
use dates::reading::Reading;
use desk::conversion::convert;
use scales::refusal::Refusal;
use written::{Written, write_utc};

#[repr(C)]
#[derive(Clone, Copy)]
pub struct UtcAnswer {
    pub number: u32,
    pub steps: u32,
    pub place: u64,
    pub day: i64,
    pub ticks: i64,
}

// A written UTC: its day and ticks, and the steps; or the refusal.
fn utc_answer(answer: Result<Written, Refusal>) -> UtcAnswer
    ensures { result ≡ utc_answer answer }
{
    match answer {
        Ok(written) => UtcAnswer {
            number: 0,
            steps: written.steps,
            place: 0,
            day: written.utc.day,
            ticks: written.utc.ticks,
        },
        Err(refusal) => UtcAnswer {
            number: refusal.number,
            steps: 0,
            place: refusal.place,
            day: 0,
            ticks: 0,
        },
    }
}

// A UTC reading, a Modified Julian Day and ticks within the day, to ticks in the scale of the
// second code. The first code is 7.
pub fn colliedash_convert_utc(
    from: u32,
    to: u32,
    day: i64,
    ticks: i64,
    leaps: &[i64],
    table: &[u8],
) -> Answer
    ensures { result
        ≡ converted_answer
        (convert_of from to (Utc day ticks) leaps.now table.now) }
{
    converted_answer(convert(from, to, Reading::Utc(day, ticks), leaps, table))
}

// Ticks in the scale of the first code, written as UTC. The second code is 7.
pub fn colliedash_write_utc(from: u32, to: u32, tick: i64, leaps: &[i64], table: &[u8]) -> UtcAnswer
    ensures { result
        ≡ utc_answer
        (write_utc_of from to (Ticks tick) leaps.now table.now) }
{
    utc_answer(write_utc(from, to, Reading::Ticks(tick), leaps, table))
}
