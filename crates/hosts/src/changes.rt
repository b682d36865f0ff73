// What changed between two tables. The list is flat, three numbers an entry: granule, largest, sum.
ghost use Rattle.std.specs.Prelude.{◌≡◌};
ghost use Rattle.hosts.specs.Changes.{changes_answer, TablesCompared};

use comparing::{RefusedOf, compare};

#[repr(C)]
#[derive(Clone, Copy)]
pub struct ChangesAnswer {
    pub number: u32,
    pub which: u32,
    pub place: u64,
    pub entries: u64,
}

// A comparison: how many granules differ, or the refusal and which table got it.
fn changes_answer(compared: Result<u64, RefusedOf>) -> ChangesAnswer
    ensures { result ≡ changes_answer compared }
{
    match compared {
        Ok(entries) => ChangesAnswer {
            number: 0,
            which: 0,
            place: 0,
            entries,
        },
        Err(refused) => ChangesAnswer {
            number: refused.refusal.number,
            which: refused.which,
            place: refused.refusal.place,
            entries: 0,
        },
    }
}

// Each granule that differs, in rising order, with the largest coefficient difference and the sum
// of the absolute differences in units of 1/65536 tick, at the front of the list; the rest of it
// stays. Refuses as judging does, the first table and then the second; 20 where S, H or G differ; 8
// where the list is too short. A refusal writes nothing.
pub fn colliedash_compare_tables(first: &[u8], second: &[u8], entries: &mut [i64]) -> ChangesAnswer
    ensures { TablesCompared first.now second.now entries.old
        entries.new result }
{
    changes_answer(compare(first, second, entries))
}
