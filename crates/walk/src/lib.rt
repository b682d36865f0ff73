// The walk from scale to scale: one step, whichever it is, and all steps of a path. What a step is,
// the crates below know; what is asked and in which order it is refused, the desk.
#![tactic(auto)]

pub mod kept;
pub mod walk;
