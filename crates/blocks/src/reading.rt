// Reading a table out of bytes.
ghost use Rattle.blocks.specs.Judging.{HasRead};

use crate::judging::judge;
use crate::told::refused;
use image::table::Table;
use image::take::take_coefficients;
use scales::refusal::Refusal;

// The table's numbers, and its coefficients into the list: 'Reading hands the coefficients into a
// list of exactly G·(n+1); there 8 comes after the table's own numbers.' On any refusal the list
// stays as it was.
pub fn read(bytes: &[u8], coefficients: &mut [i64]) -> Result<Table, Refusal>
    ensures { HasRead bytes.now coefficients.old
        coefficients.new result }
{
    let table = judge(bytes)?;
    let count = table.count as usize;
    let degree = table.degree as usize;
    if coefficients.len() != count * (degree + 1) {
        return refused(8, 0);
    }
    take_coefficients(bytes, count, degree, coefficients);
    Ok(table)
}
