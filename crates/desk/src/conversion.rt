// A conversion: 'Order: 1 (from, then to), .. then the table 10 to 16 if the path crosses TT to
// TDB, .. then 2 .., 3 .., 4, then step by step, 6 before 4.' Of UTC 8 and 7 come before the table,
// and 5 after 3.
ghost use Rattle.std.specs.Prelude.{◌≡◌};
ghost use Rattle.opened.specs.Opened.{Opened, Lent};
ghost use Rattle.desk.specs.Conversion.{between_of, convert_into, convert_of, convert_judged};
ghost use Rattle.desk.specs.Inner.{asked_over, crossed_of, over_bytes, taken_over};

use crate::asked::{Asked, asked_of};
use crate::leaps::asked_over;
use blocks::judging::judge;
use dates::reading::{Reading, purpose_of, ranged, tick_of};
use image::table::Table;
use opened::{how_many, room, take};
use scales::answer::{Converted, Epoch};
use scales::path::is_one_scale;
use scales::refusal::Refusal;
use scales::scale::{Purpose, Scale};
use walk::kept::Kept;
use walk::walk::walk;

// What was read, walked.
pub fn between(
    from: Scale,
    to: Scale,
    read: Result<i64, Refusal>,
    kept: Kept<'_>,
) -> Result<Converted, Refusal>
    ensures { result ≡ between_of from to read kept.entry.table kept.entry.coefficients.now }
{
    walk(from, to, read?, kept)
}

// Over the table that the bytes hold. They have been judged and accepted.
fn taken_over(
    from: Scale,
    to: Scale,
    read: Result<i64, Refusal>,
    bytes: &[u8],
    table: Table,
) -> Result<Converted, Refusal>
    requires { Opened bytes.now table }
    ensures { result ≡ taken_over from to read bytes.now table }
{
    let mut coefficients = room();
    take(bytes, table, &mut coefficients);
    let many = how_many(table);
    between(
        from,
        to,
        read,
        Kept {
            table: Some(table),
            coefficients: &coefficients[..many],
        },
    )
}

// Over any bytes. This has room for the largest table, which no other conversion should pay for: a
// compiler keeps it apart as long as two functions call it, one for a tick and one for a refusal.
fn over_bytes(
    from: Scale,
    to: Scale,
    read: Result<i64, Refusal>,
    bytes: &[u8],
) -> Result<Converted, Refusal>
    ensures { result ≡ over_bytes from to read bytes.now }
{
    let table = judge(bytes)?;
    taken_over(from, to, read, bytes, table)
}

// A tick that was read, walked; over the table if the path crosses.
fn convert_tick(asked: Asked, tick: i64, table: &[u8]) -> Result<Converted, Refusal>
    ensures { result ≡ asked_over (Ok asked) (Ok tick) table.now }
{
    match asked {
        Asked::Plain(start, end) => walk(
            start,
            end,
            tick,
            Kept {
                table: None,
                coefficients: &[],
            },
        ),
        Asked::Crossing(start, end) => over_bytes(start, end, Ok(tick), table),
    }
}

// A reading that was refused: the table's refusals come before it. With `convert_tick` in one
// function there would be one call of `over_bytes`, which see.
fn refuse(asked: Asked, refusal: Refusal, table: &[u8]) -> Result<Converted, Refusal>
    ensures { result ≡ asked_over (Ok asked) (Err refusal) table.now }
{
    match asked {
        Asked::Plain(_, _) => Err(refusal),
        Asked::Crossing(start, end) => over_bytes(start, end, Err(refusal), table),
    }
}

// Converts a reading in the scale of the first code into the scale of the second, in ticks, over
// the table that the bytes hold, whatever the second code is read for; or tells the refusal. 'A
// path that doesn't cross never looks at the table', and what has no use for the list of leap
// seconds never looks at that. Into its own scale a tick goes as it is, which is all that a reading
// by itself takes: that is answered before the table is handed on.
pub fn convert_into(
    writes: Purpose,
    from: u32,
    to: u32,
    reading: Reading,
    leaps: &[i64],
    table: &[u8],
) -> Result<Converted, Refusal>
    ensures { result ≡ convert_into writes from to reading leaps.now table.now }
{
    let asked = asked_over(purpose_of(reading), writes, from, to, leaps)?;
    match tick_of(reading, leaps) {
        Ok(tick) => {
            if let Asked::Plain(start, end) = asked {
                if is_one_scale(start, end) {
                    return Ok(Converted {
                        epoch: Epoch { scale: start, tick },
                        steps: 0,
                    });
                }
            }
            convert_tick(asked, tick, table)
        }
        Err(refusal) => refuse(asked, refusal, table),
    }
}

// The same into ticks.
pub fn convert(
    from: u32,
    to: u32,
    reading: Reading,
    leaps: &[i64],
    table: &[u8],
) -> Result<Converted, Refusal>
    ensures { result ≡ convert_of from to reading leaps.now table.now }
{
    convert_into(Purpose::Reading, from, to, reading, leaps, table)
}

fn crossed(
    from: Scale,
    to: Scale,
    read: Result<i64, Refusal>,
    judged: Result<Table, Refusal>,
    coefficients: &[i64],
) -> Result<Converted, Refusal>
    requires { Lent judged coefficients.now }
    ensures { result ≡ crossed_of from to read judged coefficients.now }
{
    between(
        from,
        to,
        read,
        Kept {
            table: Some(judged?),
            coefficients,
        },
    )
}

// The same of a tick over table bytes that have been judged, for callers that convert line by line.
// The coefficients are those of the table, if it was accepted.
pub fn convert_judged(
    purpose: Purpose,
    from: u32,
    to: u32,
    tick: i64,
    judged: Result<Table, Refusal>,
    coefficients: &[i64],
) -> Result<Converted, Refusal>
    requires { Lent judged coefficients.now }
    ensures { result
        ≡ convert_judged purpose from to tick judged coefficients.now }
{
    let read = ranged(tick);
    match asked_of(purpose, purpose, from, to, true, true)? {
        Asked::Plain(start, end) => between(
            start,
            end,
            read,
            Kept {
                table: None,
                coefficients: &[],
            },
        ),
        Asked::Crossing(start, end) => crossed(start, end, read, judged, coefficients),
    }
}
