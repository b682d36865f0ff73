// The path from scale to scale: 'The scales form one line with a branch: GPS, TAI, TT, then TT to
// TCG, and TT to TDB to TCB.' Each of its edges is a step along it and a step back.
ghost use Rattle.std.specs.Prelude.{◌≡◌};
ghost use Rattle.scales.specs.Rows.{edge_ends, end};
ghost use Rattle.scales.specs.Path.{is_one_scale, next, steps, barycentric};
ghost use Rattle.scales.specs.Path.{crosses};

use crate::scale::Scale;

// The edges that are linear, each from and to as the page writes its equation: 'TAI = GPS + 19 s',
// 'TT = TAI + 32.184 s', 'TT = TCG − L_G·TCG', 'TDB = TCB − L_B·TCB − 65,500 ticks'.
#[derive(Clone, Copy, Debug, PartialEq, Eq)]
pub enum Line {
    GpsTai,
    TaiTt,
    TcgTt,
    TcbTdb,
}

// An edge: a line, or from TT to TDB over the table.
#[derive(Clone, Copy, Debug, PartialEq, Eq)]
pub enum Edge {
    Linear(Line),
    Table,
}

// A step, from a scale to its neighbour.
#[derive(Clone, Copy, Debug, PartialEq, Eq)]
pub enum Step {
    Along(Edge),
    Back(Edge),
}

// The scales at the two ends of an edge.
#[derive(Clone, Copy, Debug, PartialEq, Eq)]
struct Ends {
    from: Scale,
    to: Scale,
}

// Whether the path has no step.
pub fn is_one_scale(from: Scale, to: Scale) -> bool
    ensures { result ≡ is_one_scale from to }
{
    from == to
}

// 'the number of steps walked (0 to 4)'
pub const LONGEST_PATH: u32 = 4;

fn ends_of(edge: Edge) -> Ends
    ensures { result ≡ edge_ends edge }
{
    let Edge::Linear(line) = edge else {
        return Ends {
            from: Scale::Tt,
            to: Scale::Tdb,
        };
    };
    match line {
        Line::GpsTai => Ends {
            from: Scale::Gps,
            to: Scale::Tai,
        },
        Line::TaiTt => Ends {
            from: Scale::Tai,
            to: Scale::Tt,
        },
        Line::TcgTt => Ends {
            from: Scale::Tcg,
            to: Scale::Tt,
        },
        Line::TcbTdb => Ends {
            from: Scale::Tcb,
            to: Scale::Tdb,
        },
    }
}

// The scale in which a step ends.
pub fn end_of(step: Step) -> Scale
    ensures { result ≡ end step }
{
    match step {
        Step::Along(edge) => ends_of(edge).to,
        Step::Back(edge) => ends_of(edge).from,
    }
}

// The next step from `from` on the only way to `to`, if there is one.
pub fn next_step(from: Scale, to: Scale) -> Option<Step>
    ensures { result ≡ next from to }
{
    match (from, to) {
        (Scale::Gps, Scale::Gps) => None,
        (Scale::Gps, _) => Some(Step::Along(Edge::Linear(Line::GpsTai))),
        (Scale::Tai, Scale::Gps) => Some(Step::Back(Edge::Linear(Line::GpsTai))),
        (Scale::Tai, Scale::Tai) => None,
        (Scale::Tai, _) => Some(Step::Along(Edge::Linear(Line::TaiTt))),
        (Scale::Tt, Scale::Gps | Scale::Tai) => Some(Step::Back(Edge::Linear(Line::TaiTt))),
        (Scale::Tt, Scale::Tt) => None,
        (Scale::Tt, Scale::Tcg) => Some(Step::Back(Edge::Linear(Line::TcgTt))),
        (Scale::Tt, Scale::Tdb | Scale::Tcb) => Some(Step::Along(Edge::Table)),
        (Scale::Tcg, Scale::Tcg) => None,
        (Scale::Tcg, _) => Some(Step::Along(Edge::Linear(Line::TcgTt))),
        (Scale::Tdb, Scale::Tdb) => None,
        (Scale::Tdb, Scale::Tcb) => Some(Step::Back(Edge::Linear(Line::TcbTdb))),
        (Scale::Tdb, _) => Some(Step::Back(Edge::Table)),
        (Scale::Tcb, Scale::Tcb) => None,
        (Scale::Tcb, _) => Some(Step::Along(Edge::Linear(Line::TcbTdb))),
    }
}

// How many steps the path has, 0 to 4.
pub fn steps_between(from: Scale, to: Scale) -> u32
    ensures { result ≡ steps from to }
{
    let mut at = from;
    for walked in 0..LONGEST_PATH {
        let Some(step) = next_step(at, to) else {
            return walked;
        };
        at = end_of(step);
    }
    LONGEST_PATH
}

// Whether a scale lies beyond the table, seen from TT.
fn beyond_table(scale: Scale) -> bool
    ensures { result ≡ barycentric scale }
{
    matches!(scale, Scale::Tdb | Scale::Tcb)
}

// Whether the path takes the step between TT and TDB, either way: the one that needs a table.
pub fn crosses_table(from: Scale, to: Scale) -> bool
    ensures { result ≡ crosses from to }
{
    beyond_table(from) != beyond_table(to)
}
