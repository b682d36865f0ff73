// Reading and writing in as many calls as it takes. No contract can say what is read or written;
// these say how much at most. A proved loop has to end: where only the system says when, the turns
// are counted up to a number that no run reaches.
ghost use Rattle.std.specs.Prelude.{ℕ, ◌≤◌, length, IfOk, IfErr};
ghost use Rattle.files.specs.Repeating.{Within};

use std::io;
use std::io::{Error, ErrorKind, Read, Write};

// How much of a text was written before a call failed, and why it did.
#[derive(Clone, Copy)]
pub struct Unwritten {
    pub done: usize,
    pub error: Error,
}

// Whether a call that failed is to be made again: a signal came before a byte, or the other end is
// not ready.
fn is_to_repeat(error: Error) -> bool {
    let kind = error.kind();
    kind == ErrorKind::Interrupted || kind == ErrorKind::WouldBlock
}

// Makes a call until it is not to be made again.
fn repeated<F: FnMut() -> io::Result<usize>>(mut call: F) -> io::Result<usize>
    requires { F.IsAlwaysCallable call }
    ensures { (most : F → ℕ) → Within F.step most → IfOk result (λ n. n ≤ most call) }
{
    for _turn in 0..u64::MAX {
        match call() {
            Err(error) if is_to_repeat(error) => {}
            answer => return answer,
        }
    }
    Err(Error::from(ErrorKind::Interrupted))
}

// Reads once, and answers how many bytes came: none at the end. It waits until something has come.
pub fn read_some(from: &mut impl Read, buffer: &mut [u8]) -> io::Result<usize>
    ensures { IfOk result (λ more. more ≤ length buffer.old) }
{
    repeated(|| from.read(buffer))
}

// Writes once, and answers how much of a text.
fn write_some(to: &mut impl Write, text: &[u8]) -> io::Result<usize>
    ensures { IfOk result (λ put. put ≤ length text.now) }
{
    repeated(|| to.write(text))
}

// Writes a text, all of it unless a call fails.
pub fn write_whole(to: &mut impl Write, text: &[u8]) -> Result<(), Unwritten>
    ensures { IfErr result (λ e. e.done ≤ length text.now) }
{
    let mut done = 0;
    for _turn in 0..u64::MAX {
        if done == text.len() {
            return Ok(());
        }
        done += write_some(to, &text[done..]).map_err(|error| Unwritten { done, error })?;
    }
    Err(Unwritten {
        done,
        error: Error::from(ErrorKind::Interrupted),
    })
}
