// What is asked, before any table or reading is looked at: the two scales, and whether the path
// between them crosses the table.
ghost use Rattle.std.specs.Prelude.{◌≡◌};
ghost use Rattle.desk.specs.Inner.{asked_by, asked_of, lent_checks};

use scales::path::crosses_table;
use scales::refusal::Refusal;
use scales::scale::{Purpose, Scale, scale_of};

// A path that needs no table, or one that crosses TT to TDB, from the first scale to the second.
#[derive(Clone, Copy, Debug, PartialEq, Eq)]
pub enum Asked {
    Plain(Scale, Scale),
    Crossing(Scale, Scale),
}

// Refusal 8, then 7, or the path from scale to scale.
fn asked_between(start: Scale, end: Scale, fits: bool, right: bool) -> Result<Asked, Refusal>
    ensures { result ≡ asked_by (lent_checks fits right) start end }
{
    if !fits {
        return Err(Refusal {
            number: 8,
            place: 0,
        });
    }
    if !right {
        return Err(Refusal {
            number: 7,
            place: 0,
        });
    }
    if crosses_table(start, end) {
        return Ok(Asked::Crossing(start, end));
    }
    Ok(Asked::Plain(start, end))
}

// 'Order: 1 (from, then to), 8, ..', then 7: what each code is read for, and whether the lent
// lengths fit and the list of leap seconds is right. These are two tests with a refusal each, and
// no kinds of one thing.
pub fn asked_of(
    reads: Purpose,
    writes: Purpose,
    from: u32,
    to: u32,
    fits: bool,
    right: bool,
) -> Result<Asked, Refusal>
    ensures { result ≡ asked_of reads writes from to fits right }
{
    let start = scale_of(reads, from, 0)?;
    let end = scale_of(writes, to, 1)?;
    asked_between(start, end, fits, right)
}
