// The six time scales of the desk: the tick, the codes, the path from scale to scale, and what an
// answer is. Nothing here takes a step: those that need no table are `linear`'s, the others
// `ephemeris`'.
#![tactic(auto)]

pub mod answer;
pub mod path;
pub mod refusal;
pub mod scale;
pub mod tick;
