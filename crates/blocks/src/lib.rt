// Tables as blocks: any bytes get the table's numbers or exactly the refusal that the page names,
// with its place; what is accepted writes back to the same bytes. The bytes themselves are the
// crates' below: words and checks, the form of a block, a table put and taken, the coefficients'
// tests.
#![tactic(auto)]

pub mod judging;
pub mod reading;
mod told;
pub mod writing;
