// The coefficients of a table that bytes hold. They are taken out once, however many conversions
// are made over them.
#![tactic(auto)]

ghost use Rattle.std.specs.Prelude.{◌≡◌, pos, replicate};
ghost use Rattle.image.specs.Bounds.{most_coefficients};
ghost use Rattle.image.specs.Image.{how_many};
ghost use Rattle.opened.specs.Opened.{Opened, Taken};

use image::bounds::MOST_COEFFICIENTS;
use image::table::Table;
use image::take::take_coefficients;

// How many coefficients a table has, G·(n+1).
pub fn how_many(table: Table) -> usize
    ensures { result ≡ how_many table }
{
    table.count as usize * (table.degree as usize + 1)
}

// Room for the coefficients of the largest table. A function of its own, so that no other
// function's proof unrolls so long a literal.
pub fn room() -> [i64; MOST_COEFFICIENTS]
    ensures { result ≡ replicate most_coefficients (pos 0) }
{
    [0i64; MOST_COEFFICIENTS]
}

// Takes the coefficients to the front of a clear room, behind which there are zeros still. The room
// is the caller's: of one that is handed out a compiler makes a copy where the caller lends it on
// in a struct. `how_many` goes beside the room, and not with it in a struct that keeps the fact: of
// such a struct it can't be stated that any two results are equal (`promises.Determined.taken`).
// The bytes have been judged and accepted.
pub fn take(bytes: &[u8], table: Table, room: &mut [i64])
    requires opened { Opened bytes.now table }
    requires clear { room.old ≡ replicate most_coefficients (pos 0) }
    ensures { Taken bytes.now table room.new }
{
    let many = how_many(table);
    take_coefficients(
        bytes,
        table.count as usize,
        table.degree as usize,
        &mut room[..many],
    );
}

// The same in a room of its own, handed out.
pub fn taken(bytes: &[u8], table: Table) -> [i64; MOST_COEFFICIENTS]
    requires { Opened bytes.now table }
    ensures { Taken bytes.now table result }
{
    let mut coefficients = room();
    take(bytes, table, &mut coefficients);
    coefficients
}
