// Lines of text: one line to its three numbers or refusal 9, and which of them are codes.
// Nothing here knows of files: a line is a slice without its newline.
#![tactic(auto)]

mod number;
pub mod reading;
