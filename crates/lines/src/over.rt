// What lines are answered over.
ghost use Rattle.opened.specs.Opened.{Lent};

use image::table::Table;
use scales::refusal::Refusal;

// Table bytes that were judged, and the coefficients that they hold, if they were accepted.
#[derive(Clone, Copy)]
pub struct Over<'a> {
    pub judged: Result<Table, Refusal>,
    pub coefficients: &'a [i64],
    ghost lent: { Lent judged coefficients.now },
}
