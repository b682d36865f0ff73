// Tables as blocks: judging, reading, writing.
ghost use Rattle.std.specs.Prelude.{◌≡◌};
ghost use Rattle.blocks.specs.Judging.{judged};
ghost use Rattle.hosts.specs.Answers.{table_answer};
ghost use Rattle.hosts.specs.Tables.{TableRead, TableWritten};

use crate::answers::{Answer, TableAnswer, done_answer, table_answer};
use blocks::judging::judge;
use blocks::reading::read;
use blocks::writing::write;
use linear::steps::Tt;

// The table's numbers, in ticks, or the refusal of 10 to 16 that the bytes get.
pub fn colliedash_judge(table: &[u8]) -> TableAnswer
    ensures { result ≡ table_answer (judged table.now) }
{
    table_answer(judge(table))
}

// The same, and the G·(n+1) coefficients, granule by granule, in units of 1/65536 tick. A refusal
// writes nothing.
pub fn colliedash_read_table(table: &[u8], coefficients: &mut [i64]) -> TableAnswer
    ensures { TableRead table.now coefficients.old coefficients.new result }
{
    table_answer(read(table, coefficients))
}

// Writes a table as blocks into a buffer of exactly the size needed, or refuses 8 or 13 to 16 and
// writes nothing.
pub fn colliedash_write_table(
    start: i64,
    length: i64,
    count: u32,
    degree: u32,
    coefficients: &[i64],
    image: &mut [u8],
) -> Answer
    ensures { TableWritten start length count degree coefficients.now image.old
        image.new result }
{
    done_answer(write(Tt(start), length, count, degree, coefficients, image))
}
