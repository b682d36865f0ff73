// Conversions: of ticks, of a date, of seconds past J2000, and a batch.
ghost use Rattle.std.specs.Prelude.{◌≡◌, []};
ghost use Rattle.dates.specs.declared.reading.Reading.TheVariants.{TwoPart, SinceJ2000, Ticks};
ghost use Rattle.desk.specs.Conversion.{convert_of};
ghost use Rattle.hosts.specs.Conversions.{converted_answer, batch_answer, BatchConverted};

use crate::answers::{Answer, converted_answer};
use batch::batch;
use dates::reading::Reading;
use desk::conversion::convert;
use entries::batched::RefusedAt;

// A batch: the path's steps, or the refusal and the entry's index.
fn batch_answer(batched: Result<u32, RefusedAt>) -> Answer
    ensures { result ≡ batch_answer batched }
{
    match batched {
        Ok(steps) => Answer {
            number: 0,
            steps,
            place: 0,
            index: 0,
            tick: 0,
        },
        Err(refused) => Answer {
            number: refused.refusal.number,
            steps: 0,
            place: refused.refusal.place,
            index: refused.index,
            tick: 0,
        },
    }
}

// Ticks past Julian date 2443144.5003725 in the scale of the first code, to ticks in that of the
// second.
pub fn colliedash_convert_ticks(from: u32, to: u32, tick: i64, table: &[u8]) -> Answer
    ensures { result ≡ converted_answer (convert_of from to (Ticks tick) [] table.now) }
{
    converted_answer(convert(from, to, Reading::Ticks(tick), &[], table))
}

// The same of a two-part Julian date, in days.
pub fn colliedash_convert_date(from: u32, to: u32, first: f64, second: f64, table: &[u8]) -> Answer
    ensures { result ≡ converted_answer (convert_of from to (TwoPart first second) [] table.now) }
{
    converted_answer(convert(from, to, Reading::TwoPart(first, second), &[], table))
}

// The same of seconds past J2000.
pub fn colliedash_convert_j2000(from: u32, to: u32, seconds: f64, table: &[u8]) -> Answer
    ensures { result ≡ converted_answer (convert_of from to (SinceJ2000 seconds) [] table.now) }
{
    converted_answer(convert(from, to, Reading::SinceJ2000(seconds), &[], table))
}

// A list of ticks into a second list of equal length: all of them, or a refusal that writes
// nothing.
pub fn colliedash_batch(
    from: u32,
    to: u32,
    ticks: &[i64],
    answers: &mut [i64],
    table: &[u8],
) -> Answer
    ensures { BatchConverted from to ticks.now answers.old answers.new
        table.now result }
{
    batch_answer(batch(from, to, ticks, answers, table))
}
