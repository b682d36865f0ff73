// A table's own numbers and their bounds, its bytes put, and its numbers and coefficients taken out
// of bytes. Bytes are judged elsewhere: nothing here refuses.
#![tactic(auto)]

pub mod bounds;
pub mod put;
pub mod table;
pub mod take;
