// Printed lines: an answer to its line of text, in plain decimals.
// Nothing here knows of files: a line goes into a lent buffer at a place.
#![tactic(auto)]

pub mod writing;
