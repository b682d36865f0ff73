// What is printed for a text: 'It prints `to tick steps` .. or `refused N`, one line each'. A text
// is what has been read and not answered: whole lines, and at its end the start of a line that is
// unfinished. Lines of any length are answered out of buffers of a fixed length: of an unfinished
// line no more than 65 bytes are kept, since with any more behind them it is too long anyway.
#![tactic(auto)]

pub mod over;

ghost use Rattle.std.specs.Prelude.{◌≡◌, ◌≤◌, ◌+◌, ◌*◌, length, take, drop};
ghost use Rattle.line.specs.Lines.{line_read};
ghost use Rattle.printing.specs.Buffers.{TextPut, longest};
ghost use Rattle.lines.specs.Output.{next_line, answered_to, output_from};
ghost use Rattle.lines.specs.Buffers.{Printed, Unfinished, LinesAnswered, Moving, TextFilled, Fed};

use crate::over::Over;
use desk::conversion::convert_judged;
use line::reading::{code_of, read_line};
use printing::writing::write_line;
use scales::answer::Converted;
use scales::refusal::Refusal;
use scales::scale::Purpose;

// How far an input is answered: a place in the text and one in the output, and the number of the
// line that comes next, from 1.
#[derive(Clone, Copy)]
pub struct Places {
    pub text: usize,
    pub out: usize,
    pub line: u64,
}

// The code that a line asks for, and what it is answered with. A line that is not understood asks
// for none, and none is printed for it.
#[derive(Clone, Copy)]
struct Answered {
    to: i64,
    answer: Result<Converted, Refusal>,
}

// The number of the line after another. A place has 64 bits: the greatest is the number of each
// line that has no lesser one.
fn next_line(line: u64) -> u64
    ensures { result ≡ next_line line }
{
    if line < u64::MAX {
        return line + 1;
    }
    line
}

// What a line of text, given without its newline, is answered with. `line` is its number from 1,
// the place of refusal 9.
fn answer_to(text: &[u8], line: u64, over: Over) -> Answered
    ensures { result ≡ answered_to over.entry.judged over.entry.coefficients.now
        (line_read text.now line) }
{
    match read_line(text, line) {
        Ok(numbers) => {
            let answer = convert_judged(
                Purpose::Line,
                code_of(numbers.from),
                code_of(numbers.to),
                numbers.tick,
                over.judged,
                over.coefficients,
            );
            Answered {
                to: numbers.to,
                answer,
            }
        }
        Err(refusal) => Answered {
            to: 0,
            answer: Err(refusal),
        },
    }
}

// Puts the line that answers a line of text.
fn answer_line(text: &[u8], line: u64, over: Over, out: &mut [u8], at: usize) -> usize
    requires { at + longest ≤ length out.old }
    ensures { Printed text.now line over.entry.judged over.entry.coefficients.now out.old at
        out.new result }
{
    let answered = answer_to(text, line, over);
    let answer = answered.answer;
    write_line(out, at, answered.to, answer)
}

// Answers the whole lines of a text, from the front of `out` on: where the unfinished line begins,
// where the output ends, and the unfinished line's number. `first` is the first line's.
fn answer_whole(text: &[u8], first: u64, over: Over, out: &mut [u8]) -> Places
    requires { longest * length text.now ≤ length out.old }
    ensures { LinesAnswered text.now first over.entry.judged over.entry.coefficients.now
        out.old out.new result }
{
    let mut start = 0;
    let mut end = 0;
    let mut line = first;
    for (i, byte) in text.iter().enumerate() {
        if *byte == b'\n' {
            end = answer_line(&text[start..i], line, over, out, end);
            line = next_line(line);
            start = i + 1;
        }
    }
    Places {
        text: start,
        out: end,
        line,
    }
}

// A line that has as many is too long, whatever follows.
const MOST_KEPT: usize = 65;

// Moves the first 65 bytes from `start` on, or as many as there are before `end`, to the front, and
// answers how many they are.
fn keep(text: &mut [u8], start: usize, end: usize) -> usize
    requires { Moving text.old start end }
    ensures { TextPut text.old 0 (take 65 (drop start (take end text.old)))
        text.new result }
{
    for kept in 0..MOST_KEPT {
        if start + kept >= end {
            return kept;
        }
        text[kept] = text[start + kept];
    }
    MOST_KEPT
}

// Answers the whole lines of the text's first `filled` bytes, and keeps the start of the unfinished
// one at the front of the text: how much of it is kept, where the output ends, and the unfinished
// line's number. `first` is the first line's, counted from 1 over the whole input.
pub fn feed(text: &mut [u8], filled: usize, first: u64, over: Over, out: &mut [u8]) -> Places
    requires { TextFilled text.old filled first out.old }
    ensures { Fed text.old filled first over.entry.judged over.entry.coefficients.now out.old
        text.new out.new result }
{
    let whole = answer_whole(&text[..filled], first, over, out);
    let kept = keep(text, whole.text, filled);
    Places {
        text: kept,
        out: whole.out,
        line: whole.line,
    }
}

// Answers the last line, which has no newline, if there is any of it: 'the last newline may be
// missing'. `line` is its number.
#[tactic(auto, using(crate::proofs::Pieces::empty), unfolding(printing::specs::Buffers::with_text))]
pub fn answer_last(text: &[u8], line: u64, over: Over, out: &mut [u8]) -> usize
    requires { Unfinished text.now line out.old }
    ensures { TextPut out.old 0
        (output_from line over.entry.judged over.entry.coefficients.now text.now)
        out.new result }
{
    if text.len() == 0 {
        return 0;
    }
    answer_line(text, line, over, out, 0)
}
