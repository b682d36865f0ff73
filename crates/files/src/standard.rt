// Standard input and standard output. What fails is told on standard error.
ghost use Rattle.std.specs.Prelude.{◌≤◌, length};

use crate::descriptors::{Unwritten, read_some, write_whole};
use crate::telling::tell;
use std::io;
use std::io::ErrorKind;

// Reads what has come, and answers how many bytes: none at the end of the input.
pub fn read_input(rt: &(impl Input + Eprint), buffer: &mut [u8]) -> usize
    ensures { result ≤ length buffer.new }
{
    read_some(&mut rt.reader(), buffer).unwrap_or_else(|error| {
        tell(rt, "standard input", error);
        0
    })
}

// Writes a text, and answers how much of it: all, unless a call failed. An output that was closed
// is no fault to speak of.
pub fn print(rt: &(impl Print + Eprint), text: &[u8]) -> usize
    ensures { result ≤ length text.now }
{
    match write_whole(&mut io::writer(rt), text) {
        Ok(()) => text.len(),
        Err(Unwritten { done, error }) => {
            if error.kind() != ErrorKind::BrokenPipe {
                tell(rt, "standard output", error);
            }
            done
        }
    }
}
