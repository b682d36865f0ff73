// The interface for other hosts: functions on numbers and slices, thin over the layers below, which
// `hosts_c` hands to C and Rust. An answer is a struct by value, so that no answer slot is lent,
// and there is no `requires`. `include/colliedash.h` declares the same.
#![tactic(auto)]

mod answers;
pub mod changes;
pub mod conversions;
pub mod date;
pub mod leaps;
pub mod tables;

pub use crate::answers::{Answer, TableAnswer};
