// The entries of a batch, tried between two scales over the table that is kept: 'All are tried
// first; the earliest refusal is the batch's, with its index'.
#![tactic(auto)]

pub mod batched;
pub mod trying;
