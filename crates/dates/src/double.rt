// A double taken apart by its bits.
ghost use Rattle.std.specs.Prelude.{T};
ghost use Rattle.std.specs.Float.Ieee.Scale.{finite};
ghost use Rattle.dates.specs.Inner.{Apart};

// digits · 2^exponent units of 2^-1075, half of the smallest double above zero.
#[derive(Clone, Copy)]
pub struct Parts {
    pub digits: i64,
    pub exponent: u64,
}

// A finite double's exact value, with its leading digit. Where the exponent is 0 that digit is
// missing: it is given all the same, and the value is less, either way, than is said.
pub fn take_apart(x: f64) -> Parts
    requires { T (finite x) }
    ensures { Apart x result.digits result.exponent }
{
    let bits: u64 = f64::to_bits(x);
    let exponent: u64 = (bits >> 52) & 0x7ff;
    let digits: u64 = (bits & 0xf_ffff_ffff_ffff) + 0x10_0000_0000_0000;
    if bits >= 0x8000_0000_0000_0000 {
        return Parts {
            digits: -(digits as i64),
            exponent,
        };
    }
    Parts {
        digits: digits as i64,
        exponent,
    }
}
