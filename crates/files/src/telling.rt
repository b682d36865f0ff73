// What is told on standard error.
use std::io::{Cursor, Error, Write};
use std::str;

// Room for a message of the system.
const ROOM: usize = 256;

// Tells what failed, and why, in the system's words alone, without the number that an `Error` puts
// behind them. Where that fails too, nobody can be told.
pub fn tell(rt: &impl Eprint, what: &str, error: Error) {
    let mut whole = Cursor::new([0; ROOM]);
    let _ = write!(whole, "{error}");
    let text = str::from_utf8(whole.get_ref()).unwrap_or("");
    let _ = match text.split_once(" (os error ") {
        Some((words, _)) => eprintln!(rt; "{what}: {words}"),
        None => eprintln!(rt; "{what}: {error}"),
    };
}
