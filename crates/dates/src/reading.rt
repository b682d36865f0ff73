// What a crew sends, read as a tick.
ghost use Rattle.std.specs.Prelude.{◌≡◌, false, ◌&&◌};
ghost use Rattle.dates.specs.Readings.{in_range, most_days, read_of, read_of_date, read_of_parts};
ghost use Rattle.dates.specs.Readings.{read_of_seconds, purpose_of, refused_with};
ghost use Rattle.dates.specs.Inner.{Listed, SpanWithin, few_ticks, modest, passing, worth};

use crate::limits::{beyond_days, beyond_seconds, both_pass, is_finite};
use crate::span::Span;
use crate::ticks::{Unit, sum_of_days};
use scales::refusal::Refusal;
use scales::scale::Purpose;
use scales::tick::valid;
use utc::reading::read;

// 'A reading is a two-part Julian date in days, two doubles; or seconds past J2000, one double; or
// ticks.' 'A UTC reading is a Modified Julian Day and ticks within the day.'
#[derive(Clone, Copy)]
pub enum Reading {
    TwoPart(f64, f64),
    SinceJ2000(f64),
    Ticks(i64),
    Utc(i64, i64),
}

// 'a two-part Julian date in days, two doubles'
#[derive(Clone, Copy)]
pub struct Date {
    pub first: f64,
    pub second: f64,
}

// The place told of a date part: 'part, 0 or 1'.
const FIRST: u64 = 0;

const SECOND: u64 = 1;

fn refused(number: u32, place: u64) -> Result<i64, Refusal>
    ensures { result ≡ refused_with number place }
{
    Err(Refusal { number, place })
}

// Ticks, read as they are: refusal 4 outside the range.
pub fn ranged(tick: i64) -> Result<i64, Refusal>
    ensures { result ≡ in_range tick }
{
    if valid(tick) {
        return Ok(tick);
    }
    refused(4, 0)
}

// So many units, and ticks. Beyond 100,000 days, either way, no ticks of a span bring it back into
// the range, and up to there it fits 64 bits.
fn placed(span: Span, unit: Unit) -> Result<i64, Refusal>
    requires { SpanWithin modest few_ticks span }
    ensures { result ≡ in_range (worth unit.per span) }
{
    let units = span.units;
    if units > unit.most || units < -unit.most {
        return refused(4, 0);
    }
    ranged(units * unit.per + span.rest)
}

// The refusal of two parts of which one does not pass: '2 over both parts, 3 over both parts (the
// first part first in each)'.
#[tactic(auto, unfolding(crate::specs::Readings::read_of_parts))]
fn no_date(first: f64, second: f64) -> Result<i64, Refusal>
    requires { (passing most_days first && passing most_days second) ≡ false }
    ensures { result ≡ read_of_parts first second }
{
    if !is_finite(first) {
        return refused(2, FIRST);
    }
    if !is_finite(second) {
        return refused(2, SECOND);
    }
    if beyond_days(first) {
        return refused(3, FIRST);
    }
    refused(3, SECOND)
}

// 'the exact sum of both parts is rounded once', less Julian date 2443144.5003725, which is
// 2,443,144 days and 43,232.184 s.
fn two_part(first: f64, second: f64) -> Result<i64, Refusal>
    ensures { result ≡ read_of_parts first second }
{
    if !both_pass(first, second) {
        return no_date(first, second);
    }
    let sum = Unit::DAY.rounded(sum_of_days(first, second));
    let origin = Span {
        units: -2_443_144,
        rest: -43_232_184_000_000,
    };
    placed(sum.plus(origin), Unit::DAY)
}

// Seconds past J2000, which is 725,803,167.816 s past Julian date 2443144.5003725.
fn since_j2000(seconds: f64) -> Result<i64, Refusal>
    ensures { result ≡ read_of_seconds seconds }
{
    if !is_finite(seconds) {
        return refused(2, 0);
    }
    if beyond_seconds(seconds) {
        return refused(3, 0);
    }
    let j2000 = Span {
        units: 725_803_167,
        rest: 816_000_000,
    };
    let count = Unit::SECOND.rounded(Unit::SECOND.count_of(seconds));
    placed(count.plus(j2000), Unit::SECOND)
}

// What the first code is read for.
pub fn purpose_of(reading: Reading) -> Purpose
    ensures { result ≡ purpose_of reading }
{
    match reading {
        Reading::TwoPart(_, _) => Purpose::Reading,
        Reading::SinceJ2000(_) => Purpose::Reading,
        Reading::Ticks(_) => Purpose::Reading,
        Reading::Utc(_, _) => Purpose::Utc,
    }
}

// The tick of a reading, past Julian date 2443144.5003725, or refusal 2, 3, 5 or 4, in that order.
// Where it is a UTC reading, the list has been judged by refusal 7.
pub fn tick_of(reading: Reading, leaps: &[i64]) -> Result<i64, Refusal>
    requires { Listed (purpose_of reading) leaps.now }
    ensures { result ≡ read_of leaps.now reading }
{
    match reading {
        Reading::TwoPart(first, second) => two_part(first, second),
        Reading::SinceJ2000(seconds) => since_j2000(seconds),
        Reading::Ticks(tick) => ranged(tick),
        Reading::Utc(day, ticks) => read(leaps, day, ticks),
    }
}

// The date reader: the same, of a date.
pub fn read_date(date: Date) -> Result<i64, Refusal>
    ensures { result ≡ read_of_date date }
{
    two_part(date.first, date.second)
}
