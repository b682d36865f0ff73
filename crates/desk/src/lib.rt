// The desk: 'any reading, any table bytes, any scale number get an answer or a numbered refusal
// with its place'. A conversion, by the order of the refusals; what a walk, a table or a reading
// is, the crates below know.
#![tactic(auto)]

pub mod asked;
pub mod conversion;
mod leaps;
