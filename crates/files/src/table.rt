// The bytes of the file `table.blk`.
ghost use Rattle.std.specs.Prelude.{◌≤◌, length, IfOk};

use crate::descriptors::read_some;
use crate::telling::tell;
use std::io::{ErrorKind, Read};
use std::rt::Files;
use std::{fs, io};

// Reads until the file ends or the buffer is full. How much comes at once is the system's to say,
// so that no range counts it.
fn read_whole(file: &mut impl Read, bytes: &mut [u8]) -> io::Result<usize>
    ensures { IfOk result (λ size. size ≤ length bytes.new) }
{
    let mut size = 0;
    while size < bytes.len() {
        let more = read_some(file, &mut bytes[size..])?;
        if more == 0 {
            break;
        }
        size += more;
    }
    Ok(size)
}

// 'The table is the file `table.blk`, no file counting as no bytes'.
fn read_table(rt: &impl Files, bytes: &mut [u8]) -> io::Result<usize>
    ensures { IfOk result (λ size. size ≤ length bytes.new) }
{
    match fs::open(rt, "table.blk") {
        Ok(mut file) => read_whole(&mut file, bytes),
        Err(error) if error.kind() == ErrorKind::NotFound => Ok(0),
        Err(error) => Err(error),
    }
}

// How many bytes of the table's file there are, up to the buffer's length. A file that is there
// and cannot be read counts as no bytes too, with a word on standard error.
pub fn table_bytes(rt: &(impl Files + Eprint), bytes: &mut [u8]) -> usize
    ensures { result ≤ length bytes.new }
{
    read_table(rt, bytes).unwrap_or_else(|error| {
        tell(rt, "table.blk", error);
        0
    })
}
