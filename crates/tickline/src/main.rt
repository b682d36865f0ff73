// The line program: '`tickline` reads lines of standard input'. 'The table is the file
// `table.blk`', read once and judged once.
#![tactic(auto)]

ghost use Rattle.std.specs.Prelude.{◌≡◌, length};

use files::table::table_bytes;
use printing::writing::LONGEST;
use turns::run_over;

// One byte more than the largest table has: 'bytes not 2 to 121 whole blocks' is 10, however many
// more there are.
const TABLE: usize = 121 * 512 + 1;

// What is read at once.
const TEXT: usize = 16_384;

// Room for what is printed for it: each line has at least its newline.
const OUT: usize = LONGEST * TEXT;

fn table_buffer() -> [u8; TABLE]
    ensures { 61953 ≡ length result }
{
    [0; TABLE]
}

fn text_buffer() -> [u8; TEXT]
    ensures { 16384 ≡ length result }
{
    [0; TEXT]
}

fn out_buffer() -> [u8; OUT]
    ensures { 868352 ≡ length result }
{
    [0; OUT]
}

fn main(rt: HostRuntime) {
    let mut bytes = table_buffer();
    let size = table_bytes(&rt, &mut bytes);
    let mut text = text_buffer();
    let mut out = out_buffer();
    run_over(&rt, &bytes[..size], &mut text, &mut out);
}
