// What changed between two tables: each granule that differs, in rising order, with the largest
// coefficient difference and the sum of the absolute differences. Both images are read where they
// lie.
#![tactic(auto)]

mod differing;
mod listing;

ghost use Rattle.std.specs.Prelude.{◌≡◌};
ghost use Rattle.blocks.specs.Judging.{judged};
ghost use Rattle.comparing.specs.Answers.{compared_refused, judged_as};
ghost use Rattle.comparing.specs.Comparing.{is_alike, HasCompared};
ghost use Rattle.comparing.specs.Asked.{BothAccepted};

use crate::differing::{Granules, Tables};
use blocks::judging::judge;
use image::table::Table;
use scales::refusal::Refusal;

// A refusal and which table got it, 0 the first and 1 the second, 0 where it is of both: the number
// that the C interface hands on.
#[derive(Clone, Copy, Debug, PartialEq, Eq)]
pub struct RefusedOf {
    pub refusal: Refusal,
    pub which: u32,
}

// A refusal of both tables, which has no place.
fn refused(number: u32) -> Result<u64, RefusedOf>
    ensures { result ≡ compared_refused number 0 0 }
{
    Err(RefusedOf {
        refusal: Refusal { number, place: 0 },
        which: 0,
    })
}

// A table's numbers, or its refusal with which of the two it is.
fn judge_as(which: u32, bytes: &[u8]) -> Result<Table, RefusedOf>
    ensures { result ≡ judged_as which (judged bytes.now) }
{
    judge(bytes).map_err(|refusal| RefusedOf { refusal, which })
}

// 20: whether two tables have 'equal S, H and G'.
fn alike(first: Table, second: Table) -> bool
    ensures { result ≡ is_alike first second }
{
    (first.start, first.length, first.count) == (second.start, second.length, second.count)
}

// Two tables that were judged and accepted: 20, then 8, then the list.
fn compare_accepted(
    first: &[u8],
    table: Table,
    second: &[u8],
    other: Table,
    entries: &mut [i64],
) -> Result<u64, RefusedOf>
    requires { BothAccepted first.now table second.now other }
    ensures { HasCompared first.now second.now entries.old
        entries.new result }
{
    if !alike(table, other) {
        return refused(20);
    }
    let tables = Tables {
        first: Granules {
            bytes: first,
            degree: table.degree as usize,
        },
        second: Granules {
            bytes: second,
            degree: other.degree as usize,
        },
        count: table.count as usize,
    };
    if !tables.has_room(entries.len()) {
        return refused(8);
    }
    let changes = tables.put_changes(entries);
    Ok(changes as u64)
}

// What changed from the first table to the second, 'An entry is three whole numbers: granule,
// largest, sum', the latter two in coefficient units, at the front of the list; 'both tables judged
// in turn by 10 to 16, then 20 where S, H or G differ, then 8 exactly when the buffer is shorter
// than the list'. On any refusal the list stays as it was.
pub fn compare(first: &[u8], second: &[u8], entries: &mut [i64]) -> Result<u64, RefusedOf>
    ensures { HasCompared first.now second.now entries.old
        entries.new result }
{
    let table = judge_as(0, first)?;
    let other = judge_as(1, second)?;
    compare_accepted(first, table, second, other, entries)
}
