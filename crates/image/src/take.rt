// The coefficients that bytes hold.
ghost use Rattle.std.specs.Prelude.{◌≡◌};
ghost use Rattle.image.specs.Image.{coefficient_at, stored_of, coefficients_stored};
ghost use Rattle.image.specs.Asked.{Stored, StoredAt, Taking};

use std::array;
use words::number_at;

// Coefficient m of a granule: 'from byte 8, 128 bytes a granule, sixteen 8-byte coefficients'.
pub fn coefficient(bytes: &[u8], granule: usize, m: usize) -> i64
    requires { StoredAt bytes.now granule m }
    ensures { result ≡ coefficient_at bytes.now granule m }
{
    number_at(
        bytes,
        (1 + granule / 3) * 512 + (8 + 128 * (granule % 3) + 8 * m),
    )
}

// The sixteen coefficients stored for a granule.
pub fn stored(bytes: &[u8], granule: usize) -> [i64; 16]
    requires { Stored bytes.now granule }
    ensures { result ≡ stored_of bytes.now granule }
{
    array::from_fn(|m| coefficient(bytes, granule, m))
}

// The coefficients of every granule, into a list of exactly that size.
pub fn take_coefficients(bytes: &[u8], count: usize, degree: usize, coefficients: &mut [i64])
    requires { Taking bytes.now count degree coefficients.old }
    ensures { coefficients.new ≡ coefficients_stored
        bytes.now count degree }
{
    for (i, c) in coefficients.iter_mut().enumerate() {
        let g = i / (degree + 1);
        let m = i % (degree + 1);
        *c = coefficient(bytes, g, m);
    }
}
