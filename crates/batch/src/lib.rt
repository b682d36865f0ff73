// A batch: 'A batch converts a list of ticks into a second list of equal length. All are tried
// first; the earliest refusal is the batch's, with its index, and nothing is written.'
#![tactic(auto)]

ghost use Rattle.std.specs.Prelude.{◌≡◌, length};
ghost use Rattle.batch.specs.Batch.{HasConverted};
ghost use Rattle.batch.specs.Inner.{ReadyOver, FilledTaken, FilledCrossing};

use blocks::judging::judge;
use desk::asked::{Asked, asked_of};
use entries::batched::RefusedAt;
use filling::batch_over;
use image::table::Table;
use opened::{how_many, room, take};
use scales::scale::{Purpose, Scale};
use walk::kept::Kept;

// Over the table that the bytes hold. They have been judged and accepted.
fn batch_taken(
    from: Scale,
    to: Scale,
    ticks: &[i64],
    answers: &mut [i64],
    bytes: &[u8],
    table: Table,
) -> Result<u32, RefusedAt>
    requires { ReadyOver ticks.now answers.old bytes.now table }
    ensures { FilledTaken from to ticks.now answers.old
        answers.new bytes.now table result }
{
    let mut coefficients = room();
    take(bytes, table, &mut coefficients);
    let many = how_many(table);
    batch_over(
        from,
        to,
        ticks,
        answers,
        Kept {
            table: Some(table),
            coefficients: &coefficients[..many],
        },
    )
}

// 'then the table 10 to 16'. The lists have been found of equal length.
fn batch_crossing(
    from: Scale,
    to: Scale,
    ticks: &[i64],
    answers: &mut [i64],
    bytes: &[u8],
) -> Result<u32, RefusedAt>
    requires { length answers.old ≡ length ticks.now }
    ensures { FilledCrossing from to ticks.now answers.old
        answers.new bytes.now result }
{
    let table = judge(bytes)?;
    batch_taken(from, to, ticks, answers, bytes, table)
}

// Converts ticks of the scale of the first code into ticks of the scale of the second, over the
// table that the bytes hold: all of them, or none and the refusal.
pub fn batch(
    from: u32,
    to: u32,
    ticks: &[i64],
    answers: &mut [i64],
    table: &[u8],
) -> Result<u32, RefusedAt>
    ensures { HasConverted from to ticks.now answers.old
        answers.new table.now result }
{
    let fits = ticks.len() == answers.len();
    match asked_of(Purpose::Batch, Purpose::Batch, from, to, fits, true)? {
        Asked::Plain(start, end) => batch_over(
            start,
            end,
            ticks,
            answers,
            Kept {
                table: None,
                coefficients: &[],
            },
        ),
        Asked::Crossing(start, end) => batch_crossing(start, end, ticks, answers, table),
    }
}
