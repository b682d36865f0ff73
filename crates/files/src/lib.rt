// What the system reads and writes: standard input and output, and the bytes of the table's file.
// No contract can say which bytes come, so that these say how many at most.
#![tactic(auto)]

mod descriptors;
pub mod standard;
pub mod table;
mod telling;
