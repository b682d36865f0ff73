// How an answer is made.
ghost use Rattle.std.specs.Prelude.{◌≡◌};
ghost use Rattle.blocks.specs.Answers.{judged_refused};

use image::table::Table;
use scales::refusal::Refusal;

// A refusal with its place.
pub fn refused(number: u32, place: usize) -> Result<Table, Refusal>
    ensures { result ≡ judged_refused number place }
{
    Err(Refusal {
        number,
        place: place as u64,
    })
}
