// What the exported functions answer. Number 0 is accepted; else number and place are the
// refusal's, and every other field is 0. These structs are the C interface: a number and no Result,
// each field written out.
ghost use Rattle.std.specs.Prelude.{◌≡◌};
ghost use Rattle.hosts.specs.Answers.{table_answer, done_answer, refused_answer};
ghost use Rattle.hosts.specs.Conversions.{converted_answer};

use image::table::Table;
use scales::answer::Converted;
use scales::refusal::Refusal;

#[repr(C)]
#[derive(Clone, Copy)]
pub struct Answer {
    pub number: u32,
    pub steps: u32,
    pub place: u64,
    pub index: u64,
    pub tick: i64,
}

#[repr(C)]
#[derive(Clone, Copy)]
pub struct TableAnswer {
    pub number: u32,
    pub count: u32,
    pub degree: u32,
    pub place: u64,
    pub start: i64,
    pub length: i64,
}

// A table that was judged: its numbers, or the refusal.
pub fn table_answer(judged: Result<Table, Refusal>) -> TableAnswer
    ensures { result ≡ table_answer judged }
{
    match judged {
        Ok(table) => {
            let start = table.start;
            TableAnswer {
                number: 0,
                count: table.count,
                degree: table.degree,
                place: 0,
                start: start.0,
                length: table.length,
            }
        }
        Err(refusal) => TableAnswer {
            number: refusal.number,
            count: 0,
            degree: 0,
            place: refusal.place,
            start: 0,
            length: 0,
        },
    }
}

// A refusal.
pub fn refused(number: u32, place: u64) -> Answer
    ensures { result ≡ refused_answer number place }
{
    Answer {
        number,
        steps: 0,
        place,
        index: 0,
        tick: 0,
    }
}

pub fn refused_by(refusal: Refusal) -> Answer
    ensures { result ≡ refused_answer refusal.number refusal.place }
{
    refused(refusal.number, refusal.place)
}

// A conversion: its tick and steps, or the refusal.
pub fn converted_answer(answer: Result<Converted, Refusal>) -> Answer
    ensures { result ≡ converted_answer answer }
{
    match answer {
        Ok(converted) => Answer {
            number: 0,
            steps: converted.steps,
            place: 0,
            index: 0,
            tick: converted.epoch.tick,
        },
        Err(refusal) => refused_by(refusal),
    }
}

// What was done without a tick to tell: accepted, or the refusal.
pub fn done_answer(judged: Result<Table, Refusal>) -> Answer
    ensures { result ≡ done_answer judged }
{
    match judged {
        Ok(_) => Answer {
            number: 0,
            steps: 0,
            place: 0,
            index: 0,
            tick: 0,
        },
        Err(refusal) => refused_by(refusal),
    }
}
