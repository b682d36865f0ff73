// A tick written as a date.
ghost use Rattle.std.specs.Prelude.{◌≡◌};
ghost use Rattle.dates.specs.Written.{written_of};
ghost use Rattle.hosts.specs.Dates.{date_answer};

use dates::reading::Date;
use dates::writing::write_date;
use scales::refusal::Refusal;

#[repr(C)]
#[derive(Clone, Copy)]
pub struct DateAnswer {
    pub number: u32,
    pub place: u64,
    pub first: f64,
    pub second: f64,
}

fn date_answer(written: Result<Date, Refusal>) -> DateAnswer
    ensures { result ≡ date_answer written }
{
    match written {
        Ok(date) => DateAnswer {
            number: 0,
            place: 0,
            first: date.first,
            second: date.second,
        },
        Err(refusal) => DateAnswer {
            number: refusal.number,
            place: refusal.place,
            first: 0.0,
            second: 0.0,
        },
    }
}

// A tick as a date: the last Julian date ending in .5 not after it, and the part of a day since
// then; or refusal 4.
pub fn colliedash_write_date(tick: i64) -> DateAnswer
    ensures { result ≡ date_answer (written_of tick) }
{
    date_answer(write_date(tick))
}
