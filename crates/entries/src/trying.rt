// 'All are tried first; the earliest refusal is the batch's, with its index'.
ghost use Rattle.std.specs.Prelude.{◌≡◌};
ghost use Rattle.entries.specs.Entries.{all_tried, entry_of};
ghost use Rattle.entries.specs.Inner.{ends_of, is_accepted};

use crate::batched::RefusedAt;
use dates::reading::ranged;
use desk::conversion::between;
use scales::path::steps_between;
use scales::scale::Scale;
use walk::kept::Kept;

// The earliest and the latest tick of a list.
#[derive(Clone, Copy)]
struct Ends {
    earliest: i64,
    latest: i64,
}

// The ends of a list and one more tick, so that the list may be empty.
fn ends_of(first: i64, ticks: &[i64]) -> Ends
    ensures { result ≡ ends_of first first ticks.now }
{
    let mut earliest = first;
    let mut latest = first;
    for tick in ticks {
        earliest = earliest.min(*tick);
        latest = latest.max(*tick);
    }
    Ends { earliest, latest }
}

// Whether a tick is accepted.
fn is_accepted(from: Scale, to: Scale, tick: i64, kept: Kept<'_>) -> bool
    ensures { result
        ≡ is_accepted (entry_of from to kept.entry.table kept.entry.coefficients.now tick) }
{
    between(from, to, ranged(tick), kept).is_ok()
}

// Tries the entries one by one: the earliest refusal, or the path's steps.
fn tried_each(from: Scale, to: Scale, ticks: &[i64], kept: Kept<'_>) -> Result<u32, RefusedAt>
    ensures { result ≡ all_tried from to ticks.now kept.entry.table kept.entry.coefficients.now }
{
    for (index, tick) in ticks.iter().enumerate() {
        if let Err(refusal) = between(from, to, ranged(*tick), kept) {
            return Err(RefusedAt {
                refusal,
                index: index as u64,
            });
        }
    }
    Ok(steps_between(from, to))
}

// Tries every entry: the earliest refusal, or the path's steps. Accepted ticks form an interval
// (see proofs/Interval), so that where the earliest and the latest are accepted the others need not
// be walked.
pub fn tried(from: Scale, to: Scale, ticks: &[i64], kept: Kept<'_>) -> Result<u32, RefusedAt>
    ensures { result ≡ all_tried from to ticks.now kept.entry.table kept.entry.coefficients.now }
{
    if let Some(first) = ticks.first() {
        let ends = ends_of(*first, ticks);
        let earliest = is_accepted(from, to, ends.earliest, kept);
        let latest = is_accepted(from, to, ends.latest, kept);
        if earliest && latest {
            return Ok(steps_between(from, to));
        }
    }
    tried_each(from, to, ticks, kept)
}
