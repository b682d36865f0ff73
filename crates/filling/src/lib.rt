// The second list of a batch, filled: every entry is tried first, and only where all are accepted
// is anything written.
#![tactic(auto)]

mod steps;

ghost use Rattle.std.specs.Prelude.{◌≡◌, length};
ghost use Rattle.entries.specs.Entries.{entry_of};
ghost use Rattle.filling.specs.Inner.{ticks_by, Tried, FilledOver};

use crate::steps::step_all;
use entries::batched::RefusedAt;
use entries::trying::tried;
use scales::path::{LONGEST_PATH, end_of, next_step};
use scales::scale::Scale;
use walk::kept::Kept;

// The first list's ticks into the second. They go one by one, since a copy of them all at once is a
// name that the archive for C would need from outside.
fn copy_all(ticks: &[i64], answers: &mut [i64])
    requires { length answers.old ≡ length ticks.now }
    ensures { answers.new ≡ ticks.now }
{
    for i in 0..ticks.len() {
        answers[i] = ticks[i];
    }
}

// Writes every entry's tick. All have been tried and accepted, so that the path is walked once,
// each step over the whole list.
fn write_all(from: Scale, to: Scale, ticks: &[i64], answers: &mut [i64], kept: Kept<'_>)
    requires { Tried from to ticks.now answers.old kept.table kept.coefficients.now }
    ensures { answers.new
        ≡ ticks_by (entry_of from to kept.entry.table kept.entry.coefficients.now) ticks.now }
{
    copy_all(ticks, answers);
    let mut scale = from;
    for done in 0..LONGEST_PATH {
        let Some(step) = next_step(scale, to) else {
            return;
        };
        step_all(step, scale, answers, kept);
        scale = end_of(step);
    }
}

// All are tried, then all are written. The second list is as long as the first.
pub fn batch_over(
    from: Scale,
    to: Scale,
    ticks: &[i64],
    answers: &mut [i64],
    kept: Kept<'_>,
) -> Result<u32, RefusedAt>
    requires { length answers.old ≡ length ticks.now }
    ensures { FilledOver from to ticks.now answers.old
        answers.new kept.entry.table kept.entry.coefficients.now result }
{
    let steps = tried(from, to, ticks, kept)?;
    write_all(from, to, ticks, answers, kept);
    Ok(steps)
}
