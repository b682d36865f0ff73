// Dates: what a crew sends as a reading becomes a tick, and a tick is written as a date.
// Nothing here knows what a scale means, nor of a table.
#![tactic(auto)]

mod double;
mod limits;
pub mod reading;
mod span;
mod ticks;
pub mod writing;
