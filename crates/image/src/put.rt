// A table's bytes, put into a buffer.
ghost use Rattle.std.specs.Prelude.{◌≡◌, true, ◌+◌, ◌*◌, ◌≤◌, ◌<◌, length};
ghost use Rattle.form.specs.Form.{blocks_of, is_number};
ghost use Rattle.granule.specs.Bounds.{most_degree};
ghost use Rattle.image.specs.Image.{bits_of, number_byte, coefficient_byte, body_byte, block_byte};
ghost use Rattle.image.specs.Image.{image_of};
ghost use Rattle.image.specs.Asked.{Holding, WholeTable, Fitting, Stores, Sealed};

use crate::table::Table;
use form::Shape;
use words::byte_of;
use words::check::check_of;

// A byte of one of the table's numbers: below 8 only byte 2, the degree.
fn number_byte(table: Table, j: usize) -> u8
    requires { (is_number j ≡ true) × (table.degree ≤ most_degree) }
    ensures { result ≡ number_byte table j }
{
    let start = table.start;
    match j {
        ..8 => table.degree as u8,
        8..16 => byte_of(start.0.cast_unsigned(), j - 8),
        16..24 => byte_of(table.length.cast_unsigned(), j - 16),
        _ => byte_of(u64::from(table.count), j - 24),
    }
}

// A byte of a coefficient.
fn coefficient_byte(coefficients: &[i64], shape: Shape, k: usize, j: usize) -> u8
    requires { Holding coefficients.now shape.count shape.degree k j }
    ensures { result ≡ coefficient_byte shape.degree (bits_of coefficients.now) k j }
{
    let number = (j - 8) / 8;
    let granule = 3 * (k - 1) + number / 16;
    let c = coefficients[granule * (shape.degree + 1) + number % 16];
    byte_of(c.cast_unsigned(), (j - 8) % 8)
}

// Byte j of block k, below the check.
fn body_byte(table: Table, coefficients: &[i64], k: usize, j: usize) -> u8
    requires { WholeTable table coefficients.now × (k < blocks_of table.count) × (j < 508) }
    ensures { result ≡ body_byte table coefficients.now k j }
{
    let shape = Shape {
        count: table.count as usize,
        degree: table.degree as usize,
    };
    if !shape.is_free(k, j) {
        return shape.fixed_byte(k, j);
    }
    if k == 0 {
        return number_byte(table, j);
    }
    coefficient_byte(coefficients, shape, k, j)
}

// Bytes 0 to 507 of block k.
fn put_body(image: &mut [u8], table: Table, coefficients: &[i64], k: usize)
    requires { Fitting table coefficients.now image.old × (k < blocks_of table.count) }
    ensures { Stores (body_byte table coefficients.now k) (k * 512) 508
        image.old image.new }
{
    for (j, byte) in image[k * 512..k * 512 + 508].iter_mut().enumerate() {
        *byte = body_byte(table, coefficients, k, j);
    }
}

// The check words of the block at `at`.
fn seal(image: &mut [u8], at: usize)
    requires { at + 512 ≤ length image.old }
    ensures { Sealed at image.old image.new }
{
    let check = check_of(image, at);
    image[at + 508..at + 510].copy_from_slice(&check.a.to_le_bytes());
    image[at + 510..at + 512].copy_from_slice(&check.b.to_le_bytes());
}

// All of block k.
fn put_block(image: &mut [u8], table: Table, coefficients: &[i64], k: usize)
    requires { Fitting table coefficients.now image.old × (k < blocks_of table.count) }
    ensures { Stores (block_byte (body_byte table coefficients.now k))
        (k * 512) 512 image.old image.new }
{
    put_body(image, table, coefficients, k);
    seal(image, k * 512);
}

// A whole table into a buffer of its size.
pub fn put_image(image: &mut [u8], table: Table, coefficients: &[i64])
    requires { Fitting table coefficients.now image.old }
    ensures { image.new ≡ image_of table coefficients.now }
{
    let count = table.count as usize;
    let blocks = 1 + (count + 2) / 3;
    for k in 0..blocks {
        put_block(image, table, coefficients, k);
    }
}
