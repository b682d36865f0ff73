// One step, of every tick of a list, which are ticks of one scale: which step it is is asked once,
// and each kind has a loop of its own.
ghost use Rattle.std.specs.Prelude.{◌≡◌, ℤ};
ghost use Rattle.scales.specs.Answers.{Stepped, stepped_tick};
ghost use Rattle.walk.specs.Walk.{step_of};
ghost use Rattle.filling.specs.Inner.{Steps, all_by};

use linear::steps::{along, back};
use scales::answer::{Epoch, Outside};
use scales::path::{Edge, Step};
use scales::scale::Scale;
use walk::kept::Kept;

// The tick that a step came to, 0 where it came to none.
fn tick_reached(stepped: Result<Epoch, Outside>) -> i64
    ensures { result ≡ stepped_tick stepped }
{
    match stepped {
        Ok(epoch) => epoch.tick,
        Err(_) => 0,
    }
}

// A step, of every tick of a list.
fn each<F: Fn(i64) -> Result<Epoch, Outside>>(answers: &mut [i64], step: F)
    requires { F.IsAlwaysCallable step }
    ensures { (rule : ℤ → Stepped) → Steps (F.post step) rule
        → answers.new ≡ all_by rule answers.old }
{
    for tick in answers.iter_mut() {
        *tick = tick_reached(step(*tick));
    }
}

// One step, whichever it is.
pub fn step_all(step: Step, scale: Scale, answers: &mut [i64], kept: Kept<'_>)
    ensures { answers.new
        ≡ all_by (step_of kept.entry.table kept.entry.coefficients.now step) answers.old }
{
    match step {
        Step::Along(Edge::Linear(line)) => each(answers, |tick| along(line, Epoch { scale, tick })),
        Step::Along(Edge::Table) => each(answers, |tick| kept.to_tdb(Epoch { scale, tick })),
        Step::Back(Edge::Linear(line)) => each(answers, |tick| back(line, Epoch { scale, tick })),
        Step::Back(Edge::Table) => each(answers, |tick| kept.to_tt(Epoch { scale, tick })),
    }
}
