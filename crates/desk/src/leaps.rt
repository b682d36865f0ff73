// The lent list of leap seconds, which is looked at where one of the codes is read for UTC.
ghost use Rattle.std.specs.Prelude.{◌≡◌};
ghost use Rattle.desk.specs.Order.{is_utc, uses_leaps, leaps_fit, leaps_right};
ghost use Rattle.desk.specs.Inner.{asked_of};

use crate::asked::{Asked, asked_of};
use scales::refusal::Refusal;
use scales::scale::Purpose;
use utc::leaps::is_right;

fn is_utc(purpose: Purpose) -> bool
    ensures { result ≡ is_utc purpose }
{
    purpose == Purpose::Utc
}

fn uses_leaps(reads: Purpose, writes: Purpose) -> bool
    ensures { result ≡ uses_leaps reads writes }
{
    is_utc(reads) || is_utc(writes)
}

// What is asked, with the list that is lent: 'a flat list of odd length is 8', and refusal '7
// exactly when the list breaks a rule'. Where neither code is read for UTC the list is not looked
// at, and a compiler has that case by itself: it is every other conversion's.
pub fn asked_over(
    reads: Purpose,
    writes: Purpose,
    from: u32,
    to: u32,
    leaps: &[i64],
) -> Result<Asked, Refusal>
    ensures { result
        ≡ asked_of reads writes from to
        (leaps_fit reads writes leaps.now) (leaps_right reads writes leaps.now) }
{
    if uses_leaps(reads, writes) {
        let fits = leaps.len() % 2 == 0;
        return asked_of(reads, writes, from, to, fits, is_right(leaps));
    }
    asked_of(reads, writes, from, to, true, true)
}
