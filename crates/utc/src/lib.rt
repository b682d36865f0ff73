// UTC over a lent list of leap seconds: whether the list is right, a UTC reading as a TAI tick, and
// a TAI tick written as UTC. Nothing here knows of another scale, nor of a table.
#![tactic(auto)]

mod entries;
mod judged;
pub mod leaps;
pub mod reading;
mod tai;
pub mod writing;
