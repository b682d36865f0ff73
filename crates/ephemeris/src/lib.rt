// The step between TT and TDB over an accepted table: `tick` has the two scales' ticks, `places`
// the opened table with D and TDB at a place, `earliest` the way back, `over` the steps themselves.
#![tactic(auto)]

mod earliest;
pub mod over;
mod places;
mod tick;
