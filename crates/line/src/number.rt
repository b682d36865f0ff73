// A number's text at a place of a line: 'optional minus on each, 1 to 20 digits, each fitting
// signed 64 bits'.
ghost use Rattle.std.specs.Prelude.{◌≡◌, true, ◌≤◌, ◌<◌, ◌^◌, ◌==◌, length, position};
ghost use Rattle.std.specs.Option.{SomeIff};
ghost use Rattle.line.specs.Numbers.{all_digits, value_of, digits_number, number_in};
ghost use Rattle.line.specs.Scan.{field, told, number_scanned};

// A number and where its text ends.
#[derive(Clone, Copy, Debug, PartialEq, Eq)]
pub struct Found {
    pub number: i64,
    pub end: usize,
}

// Where the first space of a text is.
fn space_in(text: &[u8]) -> Option<usize>
    ensures { result ≡ position (λ b. b == 32) text.now }
{
    text.iter().position(|byte| *byte == b' ')
}

// The field at the front of a text: the bytes before the first space.
fn field(text: &[u8]) -> &[u8]
    ensures { result.now ≡ field text.now }
{
    &text[..space_in(text).unwrap_or(text.len())]
}

// The size that digits say, if they are digits and it is below 2^64.
fn size_in(digits: &[u8]) -> Option<u64>
    ensures { SomeIff result ((all_digits digits.now ≡ true) × (value_of digits.now < 2 ^ 64))
        (value_of digits.now) }
{
    let mut size: u64 = 0;
    for digit in digits {
        if !digit.is_ascii_digit() {
            return None;
        }
        size = size.checked_mul(10)?.checked_add(u64::from(digit - b'0'))?;
    }
    Some(size)
}

// The number of a given sign that 1 to 20 digits say, if it fits signed 64 bits.
fn digits_number(negative: bool, digits: &[u8]) -> Option<i64>
    ensures { told result ≡ digits_number negative digits.now }
{
    if digits.is_empty() || digits.len() > 20 {
        return None;
    }
    let size = size_in(digits)?;
    if negative {
        0_i64.checked_sub_unsigned(size)
    } else {
        i64::try_from(size).ok()
    }
}

// The number that a field says.
fn number_in(field: &[u8]) -> Option<i64>
    ensures { told result ≡ number_in field.now }
{
    match field.strip_prefix(b"-") {
        Some(digits) => digits_number(true, digits),
        None => digits_number(false, field),
    }
}

// The number whose field begins at `at`, and where the field ends. The callers' place lies in the
// text or at its end.
pub fn number_from(text: &[u8], at: usize) -> Option<Found>
    requires { at ≤ length text.now }
    ensures { result ≡ number_scanned text.now at }
{
    let field = field(&text[at..]);
    let number = number_in(field)?;
    Some(Found {
        number,
        end: at + field.len(),
    })
}
