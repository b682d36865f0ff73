// The walk: 'A conversion walks the only path and rounds at every step.'
ghost use Rattle.std.specs.Prelude.{◌≡◌};
ghost use Rattle.walk.specs.Walk.{step_of, walk_between, answer_refused};

use crate::kept::Kept;
use linear::steps::{along, back};
use scales::answer::{Converted, Epoch, Outside};
use scales::path::{Edge, LONGEST_PATH, Step, next_step};
use scales::refusal::Refusal;
use scales::scale::Scale;

fn refused(number: u32, place: u64) -> Result<Converted, Refusal>
    ensures { result ≡ answer_refused number place }
{
    Err(Refusal { number, place })
}

// The step from an epoch of the scale in which it begins.
fn take_step(step: Step, epoch: Epoch, kept: Kept<'_>) -> Result<Epoch, Outside>
    ensures { result ≡ step_of kept.entry.table kept.entry.coefficients.now step epoch.tick }
{
    match step {
        Step::Along(Edge::Linear(line)) => along(line, epoch),
        Step::Along(Edge::Table) => kept.to_tdb(epoch),
        Step::Back(Edge::Linear(line)) => back(line, epoch),
        Step::Back(Edge::Table) => kept.to_tt(epoch),
    }
}

// From epoch to epoch until the path is at its end: 'step by step, 6 before 4'.
pub fn walk(from: Scale, to: Scale, start: i64, kept: Kept<'_>) -> Result<Converted, Refusal>
    ensures { result ≡ walk_between kept.entry.table kept.entry.coefficients.now from to start }
{
    let mut epoch = Epoch {
        scale: from,
        tick: start,
    };
    for steps in 0..LONGEST_PATH {
        let Some(step) = next_step(epoch.scale, to) else {
            return Ok(Converted { epoch, steps });
        };
        match take_step(step, epoch, kept) {
            Ok(next) => {
                epoch = next;
            }
            Err(Outside::Table) => {
                return refused(6, u64::from(steps));
            }
            Err(Outside::Range) => {
                return refused(4, u64::from(steps) + 1);
            }
        }
    }
    Ok(Converted {
        epoch,
        steps: LONGEST_PATH,
    })
}
