// An answer's line of text: 'It prints `to tick steps` (`to` is the code asked, in plain decimals,
// 0 as 0) or `refused N`, one line each'. A line goes into a lent buffer at a place, and the place
// after it is handed back; what is before the line and after it stays as it was.
ghost use Rattle.std.specs.Prelude.{◌≡◌, length, ◌≤◌, ◌+◌};
ghost use Rattle.printing.specs.Texts.{answer_line, refused_line, line_text};
ghost use Rattle.printing.specs.Buffers.{TextPut, longest};

use arrayvec::ArrayString;
use itoa::Buffer;
use scales::answer::Converted;
use scales::refusal::Refusal;

// No printed line is longer: the callers empty their buffer when less than this is left of it.
pub const LONGEST: usize = 53;

// `to tick steps` and a newline.
fn answer_line(to: i64, tick: i64, steps: u32) -> ArrayString<LONGEST>
    ensures { result.bytes ≡ answer_line to tick steps }
{
    let mut number = Buffer::new();
    let mut line = ArrayString::new();
    line.push_str(number.format(to));
    line.push_str(" ");
    line.push_str(number.format(tick));
    line.push_str(" ");
    line.push_str(number.format(steps));
    line.push_str("\n");
    line
}

// Puts a text into a buffer at a place, and answers the place after it. `write!` tells what it
// wrote where it succeeds, and nothing tells that it does, so that the bytes are copied.
fn put_text(out: &mut [u8], at: usize, text: &str) -> usize
    requires { at + length text.now ≤ length out.old }
    ensures { TextPut out.old at text.now out.new result }
{
    let end = at + text.len();
    out[at..end].copy_from_slice(text.as_bytes());
    end
}

// Puts `refused N` and a newline, each part where the one before it ends: a line that is refused is
// mostly this, and built first it would be copied once more. The callers keep room for the longest
// line.
fn put_refused(out: &mut [u8], at: usize, number: u32) -> usize
    requires { at + longest ≤ length out.old }
    ensures { TextPut out.old at (refused_line number) out.new result }
{
    let word = put_text(out, at, "refused ");
    let digits = put_text(out, word, Buffer::new().format(number));
    put_text(out, digits, "\n")
}

// Puts the line of an answer to a conversion into the scale of the code `to`, as the line read had
// it. The callers keep room for the longest line.
pub fn write_line(out: &mut [u8], at: usize, to: i64, answer: Result<Converted, Refusal>) -> usize
    requires { at + longest ≤ length out.old }
    ensures text { TextPut out.old at (line_text to answer) out.new result }
    ensures short { length (line_text to answer) ≤ longest }
{
    match answer {
        Ok(converted) => {
            put_text(
                out,
                at,
                &answer_line(to, converted.epoch.tick, converted.steps),
            )
        }
        Err(refusal) => put_refused(out, at, refusal.number),
    }
}
