// What C links: the functions of `hosts`, each under its own name, with the same clauses. A crate
// is a library or a static library, so that these stand apart. `include/colliedash.h` declares the
// same.
#![tactic(auto)]

ghost use Rattle.std.specs.Prelude.{◌≡◌, []};
ghost use Rattle.blocks.specs.Judging.{judged};
ghost use Rattle.dates.specs.Written.{written_of};
ghost use Rattle.dates.specs.declared.reading.Reading.TheVariants.{Ticks, TwoPart, SinceJ2000, Utc};
ghost use Rattle.desk.specs.Conversion.{convert_of};
ghost use Rattle.hosts.specs.Answers.{table_answer};
ghost use Rattle.hosts.specs.Changes.{TablesCompared};
ghost use Rattle.hosts.specs.Conversions.{converted_answer, BatchConverted};
ghost use Rattle.hosts.specs.Dates.{date_answer};
ghost use Rattle.hosts.specs.Tables.{TableRead, TableWritten};
ghost use Rattle.hosts.specs.Utc.{utc_answer};
ghost use Rattle.written.specs.Written.{write_utc_of};

use hosts::changes::ChangesAnswer;
use hosts::date::DateAnswer;
use hosts::leaps::UtcAnswer;
use hosts::{Answer, TableAnswer};

// Ticks past Julian date 2443144.5003725 in the scale of the first code, to ticks in that of the
// second.
#[unsafe(no_mangle)]
pub extern "C" fn colliedash_convert_ticks(from: u32, to: u32, tick: i64, table: &[u8]) -> Answer
    ensures { result ≡ converted_answer (convert_of from to (Ticks tick) [] table.now) }
{
    hosts::conversions::colliedash_convert_ticks(from, to, tick, table)
}

// The same of a two-part Julian date, in days.
#[unsafe(no_mangle)]
pub extern "C" fn colliedash_convert_date(
    from: u32,
    to: u32,
    first: f64,
    second: f64,
    table: &[u8],
) -> Answer
    ensures { result ≡ converted_answer (convert_of from to (TwoPart first second) [] table.now) }
{
    hosts::conversions::colliedash_convert_date(from, to, first, second, table)
}

// The same of seconds past J2000.
#[unsafe(no_mangle)]
pub extern "C" fn colliedash_convert_j2000(from: u32, to: u32, seconds: f64, table: &[u8]) -> Answer
    ensures { result ≡ converted_answer (convert_of from to (SinceJ2000 seconds) [] table.now) }
{
    hosts::conversions::colliedash_convert_j2000(from, to, seconds, table)
}

// A list of ticks into a second list of equal length: all of them, or a refusal that writes
// nothing.
#[unsafe(no_mangle)]
pub extern "C" fn colliedash_batch(
    from: u32,
    to: u32,
    ticks: &[i64],
    answers: &mut [i64],
    table: &[u8],
) -> Answer
    ensures { BatchConverted from to ticks.now answers.old answers.new
        table.now result }
{
    hosts::conversions::colliedash_batch(from, to, ticks, answers, table)
}

// A tick as a date: the last Julian date ending in .5 not after it, and the part of a day since
// then; or refusal 4.
#[unsafe(no_mangle)]
pub extern "C" fn colliedash_write_date(tick: i64) -> DateAnswer
    ensures { result ≡ date_answer (written_of tick) }
{
    hosts::date::colliedash_write_date(tick)
}

// A UTC reading, a Modified Julian Day and ticks within the day, to ticks in the scale of the
// second code. The first code is 7.
#[unsafe(no_mangle)]
pub extern "C" fn colliedash_convert_utc(
    from: u32,
    to: u32,
    day: i64,
    ticks: i64,
    leaps: &[i64],
    table: &[u8],
) -> Answer
    ensures { result
        ≡ converted_answer
        (convert_of from to (Utc day ticks) leaps.now table.now) }
{
    hosts::leaps::colliedash_convert_utc(from, to, day, ticks, leaps, table)
}

// Ticks in the scale of the first code, written as UTC. The second code is 7.
#[unsafe(no_mangle)]
pub extern "C" fn colliedash_write_utc(
    from: u32,
    to: u32,
    tick: i64,
    leaps: &[i64],
    table: &[u8],
) -> UtcAnswer
    ensures { result
        ≡ utc_answer
        (write_utc_of from to (Ticks tick) leaps.now table.now) }
{
    hosts::leaps::colliedash_write_utc(from, to, tick, leaps, table)
}

// The table's numbers, in ticks, or the refusal of 10 to 16 that the bytes get.
#[unsafe(no_mangle)]
pub extern "C" fn colliedash_judge(table: &[u8]) -> TableAnswer
    ensures { result ≡ table_answer (judged table.now) }
{
    hosts::tables::colliedash_judge(table)
}

// The same, and the G·(n+1) coefficients, granule by granule, in units of 1/65536 tick. A refusal
// writes nothing.
#[unsafe(no_mangle)]
pub extern "C" fn colliedash_read_table(table: &[u8], coefficients: &mut [i64]) -> TableAnswer
    ensures { TableRead table.now coefficients.old coefficients.new result }
{
    hosts::tables::colliedash_read_table(table, coefficients)
}

// Writes a table as blocks into a buffer of exactly the size needed, or refuses 8 or 13 to 16 and
// writes nothing.
#[unsafe(no_mangle)]
pub extern "C" fn colliedash_write_table(
    start: i64,
    length: i64,
    count: u32,
    degree: u32,
    coefficients: &[i64],
    image: &mut [u8],
) -> Answer
    ensures { TableWritten start length count degree coefficients.now image.old
        image.new result }
{
    hosts::tables::colliedash_write_table(start, length, count, degree, coefficients, image)
}

// Each granule that differs, in rising order, with the largest coefficient difference and the sum
// of the absolute differences in units of 1/65536 tick, at the front of the list; the rest of it
// stays. Refuses as judging does, the first table and then the second; 20 where S, H or G differ; 8
// where the list is too short. A refusal writes nothing.
#[unsafe(no_mangle)]
pub extern "C" fn colliedash_compare_tables(
    first: &[u8],
    second: &[u8],
    entries: &mut [i64],
) -> ChangesAnswer
    ensures { TablesCompared first.now second.now entries.old
        entries.new result }
{
    hosts::changes::colliedash_compare_tables(first, second, entries)
}
