// A line's three numbers: '`from to tick`, one space between, at most 64 bytes without the
// newline'.
ghost use Rattle.std.specs.Prelude.{◌≡◌};
ghost use Rattle.line.specs.Lines.{line_read, code_of};

use crate::number::number_from;
use scales::refusal::Refusal;

// The numbers of a line.
#[derive(Clone, Copy, Debug, PartialEq, Eq)]
pub struct Numbers {
    pub from: i64,
    pub to: i64,
    pub tick: i64,
}

// Reads a line, given without its newline, of any length. `line` is its number from 1, the place of
// refusal 9.
pub fn read_line(text: &[u8], line: u64) -> Result<Numbers, Refusal>
    ensures { result ≡ line_read text.now line }
{
    let refused = Err(Refusal {
        number: 9,
        place: line,
    });
    if text.len() > 64 {
        return refused;
    }
    let Some(first) = number_from(text, 0) else {
        return refused;
    };
    if first.end >= text.len() {
        return refused;
    }
    let Some(second) = number_from(text, first.end + 1) else {
        return refused;
    };
    if second.end >= text.len() {
        return refused;
    }
    let Some(third) = number_from(text, second.end + 1) else {
        return refused;
    };
    if third.end < text.len() {
        return refused;
    }
    Ok(Numbers {
        from: first.number,
        to: second.number,
        tick: third.number,
    })
}

// The greatest unsigned number of 32 bits, which can never be a code.
const NO_CODE: u32 = 4_294_967_295;

// A line's number as the desk takes codes, which are unsigned. Which numbers are codes is the
// desk's to say: one that fits is handed on as it is, and any other as one that it refuses with 1.
pub fn code_of(number: i64) -> u32
    ensures { result ≡ code_of number }
{
    u32::try_from(number).unwrap_or(NO_CODE)
}
