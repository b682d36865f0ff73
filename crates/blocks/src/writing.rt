// Writing a table as blocks.
ghost use Rattle.blocks.specs.Judging.{table_from, Wrote};

use crate::told::refused;
use granules::test_listed;
use image::bounds::bounded;
use image::put::put_image;
use image::table::Table;
use linear::steps::Tt;
use scales::refusal::Refusal;

// 'Writing takes the table's numbers, among them G·(n+1) coefficients granule by granule, and a
// buffer of exactly the size needed. Writing refuses with 13 to 16 as reading does, after 8; the
// sizes for 8 follow from the given G and degree even where these break a bound.' On any refusal
// the buffer stays as it was.
pub fn write(
    start: Tt,
    length: i64,
    count: u32,
    degree: u32,
    coefficients: &[i64],
    image: &mut [u8],
) -> Result<Table, Refusal>
    ensures { Wrote (table_from start length count degree) coefficients.now
        image.old image.new result }
{
    let table = Table {
        start,
        length,
        count,
        degree,
    };
    let granules = count as usize;
    let width = degree as usize + 1;
    if coefficients.len() != granules * width {
        return refused(8, 0);
    }
    if image.len() != (1 + (granules + 2) / 3) * 512 {
        return refused(8, 0);
    }
    if !bounded(table) {
        return refused(13, 0);
    }
    test_listed(coefficients, table)?;
    put_image(image, table, coefficients);
    Ok(table)
}
