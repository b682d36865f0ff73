// Judging table bytes.
ghost use Rattle.std.specs.Prelude.{◌≡◌};
ghost use Rattle.blocks.specs.Judging.{is_whole, judged};

use crate::told::refused;
use form::Shape;
use granules::test_stored;
use image::bounds::bounded;
use image::table::{Table, table_of};
use scales::refusal::Refusal;
use words::check::lowest_unchecked;

// Whether so many bytes are '2 to 121 whole blocks'.
fn whole(length: usize) -> bool
    ensures { result ≡ is_whole length }
{
    if length % 512 != 0 {
        return false;
    }
    1024 <= length && length <= 61_952
}

// The table's numbers, or the first of refusals 10, 11, 12 (block 0), 13, 12 (others), 14, 15, 16,
// 'each test over all blocks before the next'.
pub fn judge(bytes: &[u8]) -> Result<Table, Refusal>
    ensures { result ≡ judged bytes.now }
{
    let length = bytes.len();
    if !whole(length) {
        return refused(10, 0);
    }
    if let Some(unchecked) = lowest_unchecked(bytes) {
        return refused(11, unchecked);
    }
    let unknown = Shape {
        count: 0,
        degree: 0,
    };
    if unknown.lowest_unformed(bytes, 0, 1).is_some() {
        return refused(12, 0);
    }
    let table = table_of(bytes);
    if !bounded(table) {
        return refused(13, 0);
    }
    let blocks = length / 512;
    let count = table.count as usize;
    if blocks != 1 + (count + 2) / 3 {
        return refused(13, 0);
    }
    let shape = Shape {
        count,
        degree: table.degree as usize,
    };
    if let Some(unformed) = shape.lowest_unformed(bytes, 1, blocks) {
        return refused(12, unformed);
    }
    test_stored(bytes, table)?;
    Ok(table)
}
