// Tests 14 to 16 of a table's coefficients, in one pass over the granules. 'Each test over all
// blocks before the next': the tests have their rank, and what is told is the lowest rank at which
// a granule fails, with the lowest such granule. A coefficient beyond 2^40 is of the lowest rank
// there is and ends the pass, so that the sums of every granule passed fit 64 bits.
#![tactic(auto)]

ghost use Rattle.std.specs.Prelude.{◌≡◌, ℕ, ◌<◌, List, ℤ};
ghost use Rattle.granule.specs.Asked.{Summable};
ghost use Rattle.image.specs.Asked.{WholeTable};
ghost use Rattle.numbers.specs.Tests.{rank};
ghost use Rattle.granules.specs.Tests.{own_rules, granule_tests};
ghost use Rattle.granules.specs.Answers.{tested_by, tested_stored, tested_listed};
ghost use Rattle.granules.specs.Pass.{joined_rank, scan_next, Short, Formed, Finds, RankTold};

use granule::{Units, alternating, joined, light, plain, small, weight};
use image::table::Table;
use image::take::stored;
use scales::refusal::Refusal;

// What the pass keeps: the lowest rank so far with its granule, and the plain sum of the last one.
// Where none has failed the rank is `NONE`, one more than the last: so the lower is the one that is
// told, with no case for none.
#[derive(Clone, Copy, Debug, PartialEq, Eq)]
pub struct Scan {
    pub rank: usize,
    pub place: usize,
    pub plain: Units,
}

// The numbers of the tests, in the order of their ranks: those of a granule by itself, then 16.
const NUMBERS: [u32; 3] = [14, 15, 16];

// The ranks of a granule that fails none, and of 16.
const NONE: usize = NUMBERS.len();

const JOIN: usize = NONE - 1;

// The tests of a granule by itself: the rank of the first that fails, or how many there are.
fn own_rank(coefficients: &[i64], length: u64) -> usize
    requires { Short coefficients.now }
    ensures { result ≡ rank (own_rules length) coefficients.now }
{
    if !small(coefficients) {
        return 0;
    }
    if !light(weight(coefficients), length) {
        return 1;
    }
    JOIN
}

// And with its join to the granule before, where there is one.
#[tactic(auto, unfolding(crate::specs::Pass::joined_rank))]
fn rank_of(own: usize, g: usize, before: Units, coefficients: &[i64]) -> usize
    requires { Summable coefficients.now }
    ensures { result ≡ joined_rank own g before.0 coefficients.now }
{
    if own < JOIN {
        own
    } else if g == 0 || joined(before, alternating(coefficients)) {
        NONE
    } else {
        JOIN
    }
}

// The pass, with granule g; none where it fails the first test, since none can be lower.
fn look_at(scan: Scan, g: usize, coefficients: &[i64], length: u64) -> Option<Scan>
    requires { Short coefficients.now }
    ensures { result ≡ scan_next scan g coefficients.now length }
{
    let own = own_rank(coefficients, length);
    if own == 0 {
        return None;
    }
    let before = scan.plain;
    let rank = rank_of(own, g, before, coefficients);
    let sum = plain(coefficients);
    if rank < scan.rank {
        return Some(Scan {
            rank,
            place: g,
            plain: sum,
        });
    }
    Some(Scan { plain: sum, ..scan })
}

// What a rank tells of a granule: its test's number, or that it has passed.
fn told(rank: usize, place: usize) -> Result<(), Refusal>
    ensures { RankTold rank place result }
{
    if NONE <= rank {
        return Ok(());
    }
    let number = NUMBERS[rank];
    Err(Refusal {
        number,
        place: place as u64,
    })
}

// The one pass over a table's granules, by what looks at each.
fn pass_over<F: Fn(Scan, usize) -> Option<Scan>>(table: Table, look: F) -> Result<(), Refusal>
    requires { (scan : _) (g : ℕ) → g < table.count → F.pre look scan g }
    ensures { (granule : ℕ → List ℤ) → Finds (F.post look) table granule
        → result ≡ tested_by (granule_tests table granule) }
{
    let mut scan = Scan {
        rank: NONE,
        place: 0,
        plain: Units(0),
    };
    for g in 0..table.count as usize {
        let Some(onward) = look(scan, g) else {
            return told(0, g);
        };
        scan = onward;
    }
    told(scan.rank, scan.place)
}

// The coefficients of a table in bytes, whose bounds and blocks are right: so all sixteen of a
// granule are looked at, 'those above the degree zero'.
pub fn test_stored(bytes: &[u8], table: Table) -> Result<(), Refusal>
    requires { Formed bytes.now table }
    ensures { result ≡ tested_stored bytes.now table }
{
    let length = table.length as u64;
    pass_over(table, |scan, g| look_at(scan, g, &stored(bytes, g), length))
}

// The coefficients of a table in a list, granule by granule, whose bounds are right.
pub fn test_listed(coefficients: &[i64], table: Table) -> Result<(), Refusal>
    requires { WholeTable table coefficients.now }
    ensures { result ≡ tested_listed coefficients.now table }
{
    let width = table.degree as usize + 1;
    let length = table.length as u64;
    pass_over(table, |scan, g| {
        let from = g * width;
        let to = from + width;
        look_at(scan, g, &coefficients[from..to], length)
    })
}
