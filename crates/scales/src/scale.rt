// The scales and their codes.
ghost use Rattle.std.specs.Prelude.{◌≡◌};
ghost use Rattle.scales.specs.Scales.{lowest_code, highest_code, is_code, named, scale_of};

use crate::refusal::Refusal;

#[derive(Clone, Copy, Debug, PartialEq, Eq)]
pub enum Scale {
    Gps,
    Tai,
    Tt,
    Tcg,
    Tdb,
    Tcb,
}

// What a code is read for: the scale of a date or of ticks in one conversion, of a batch of ticks
// or of a line of text; or a UTC reading, or a written one.
#[derive(Clone, Copy, Debug, PartialEq, Eq)]
pub enum Purpose {
    Reading,
    Batch,
    Line,
    Utc,
}

// The lowest code, by what it is read for. It and the highest are two functions, since the page's
// list of codes has a row for each use and each end.
fn lowest_code(purpose: Purpose) -> u32
    ensures { result ≡ lowest_code purpose }
{
    match purpose {
        Purpose::Reading => 0,
        Purpose::Batch => 0,
        Purpose::Line => 0,
        Purpose::Utc => 7,
    }
}

// The highest: none but UTC's is a 'scale code above 6'.
fn highest_code(purpose: Purpose) -> u32
    ensures { result ≡ highest_code purpose }
{
    match purpose {
        Purpose::Reading => 6,
        Purpose::Batch => 6,
        Purpose::Line => 6,
        Purpose::Utc => 7,
    }
}

// Whether a number is a code.
fn is_code(purpose: Purpose, code: u32) -> bool
    ensures { result ≡ is_code purpose code }
{
    if code < lowest_code(purpose) {
        return false;
    }
    code <= highest_code(purpose)
}

// 'Codes: 1 GPS, 2 TAI, 3 TT, 4 TCG, 5 TDB, 6 TCB; 0 is read as TT.' 'UTC is code 7', and is read
// and written in TAI. A number that is no code names none; TT stands in for it.
fn scale_named(code: u32) -> Scale
    ensures { result ≡ named code }
{
    match code {
        0 => Scale::Tt,
        1 => Scale::Gps,
        2 => Scale::Tai,
        3 => Scale::Tt,
        4 => Scale::Tcg,
        5 => Scale::Tdb,
        6 => Scale::Tcb,
        7 => Scale::Tai,
        _ => Scale::Tt,
    }
}

// The scale of a code, or refusal 1 at the given place: 0 from, 1 to.
pub fn scale_of(purpose: Purpose, code: u32, place: u64) -> Result<Scale, Refusal>
    ensures { result ≡ scale_of purpose code place }
{
    if is_code(purpose, code) {
        return Ok(scale_named(code));
    }
    Err(Refusal { number: 1, place })
}
