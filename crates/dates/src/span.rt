// A count that may be too wide for 64 bits, in two: whole units, and what is left of one in a
// smaller measure. Units are days or seconds with ticks left, or pieces with shares left (`ticks`).
ghost use Rattle.std.specs.Prelude.{◌+ℤ◌};
ghost use Rattle.dates.specs.Inner.{Spanned, SpanWithin, modest};

#[derive(Clone, Copy)]
pub struct Span {
    pub units: i64,
    pub rest: i64,
}

impl Span {
    // The sum of two of one unit.
    pub fn plus(self, other: Span) -> Span
        requires one { SpanWithin modest modest self }
        requires other { SpanWithin modest modest other }
        ensures { Spanned result (self.units +ℤ other.units) (self.rest +ℤ other.rest) }
    {
        Span {
            units: self.units + other.units,
            rest: self.rest + other.rest,
        }
    }
}
