// The run of the line program: turn by turn it reads what has come, prints the lines for it, and
// keeps the start of a line that is unfinished. What is printed for what is read is decided in the
// library `lines`; the system is asked in the library `files` alone.
#![tactic(auto)]

ghost use Rattle.turns.specs.Buffers.{Waiting, Left, Large};

use blocks::judging::judge;
use files::standard::{print, read_input};
use lines::over::Over;
use lines::{answer_last, feed};
use opened::{how_many, room, take};

// What a turn leaves: how many bytes of an unfinished line, and its number; or that the input has
// ended, or that nothing more can be printed.
#[derive(Clone, Copy)]
enum Outcome {
    Kept(usize, u64),
    Ended,
    Closed,
}

// One turn: reads what has come, prints the lines for the whole lines, keeps the start of an
// unfinished one. `kept` bytes of it are at the front of `text`, and `line` is its number.
fn turn(
    rt: &(impl Input + Print + Eprint),
    text: &mut [u8],
    kept: usize,
    line: u64,
    over: Over,
    out: &mut [u8],
) -> Outcome
    requires { Waiting text.old kept line out.old }
    ensures { Left kept line text.new result }
{
    let more = read_input(rt, &mut text[kept..]);
    if more == 0 {
        return Outcome::Ended;
    }
    let places = feed(text, kept + more, line, over, out);
    let end = places.out;
    if print(rt, &out[..end]) == end {
        return Outcome::Kept(places.text, places.line);
    }
    Outcome::Closed
}

// Turn by turn until the input ends; then the last line, if its newline is missing. The lines are
// counted from 1, over all turns. There are more turns than any run takes.
fn run(rt: &(impl Input + Print + Eprint), text: &mut [u8], over: Over, out: &mut [u8])
    requires { Large text.old out.old }
{
    let mut kept = 0;
    let mut line = 1;
    for _turn in 0..u64::MAX {
        match turn(rt, text, kept, line, over, out) {
            Outcome::Kept(size, number) => {
                kept = size;
                line = number;
            }
            Outcome::Ended => {
                let end = answer_last(&text[..kept], line, over, out);
                print(rt, &out[..end]);
                return;
            }
            Outcome::Closed => {
                return;
            }
        }
    }
}

// Over the table that the bytes hold, judged once.
pub fn run_over(rt: &(impl Input + Print + Eprint), bytes: &[u8], text: &mut [u8], out: &mut [u8])
    requires { Large text.old out.old }
{
    let judged = judge(bytes);
    match judged {
        Ok(table) => {
            let mut room = room();
            take(bytes, table, &mut room);
            let many = how_many(table);
            let coefficients = &room[..many];
            run(
                rt,
                text,
                Over {
                    judged,
                    coefficients,
                },
                out,
            );
        }
        Err(_) => {
            let coefficients = &[];
            run(
                rt,
                text,
                Over {
                    judged,
                    coefficients,
                },
                out,
            );
        }
    }
}
