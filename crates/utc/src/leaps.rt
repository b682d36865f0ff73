// The rule of 'a lent list of up to 64 pairs (first day, TAI−UTC in seconds)'.
ghost use Rattle.std.specs.Prelude.{◌≡◌};
ghost use Rattle.utc.specs.Leaps.{is_list_right};

use crate::entries::Leaps;

// 'up to 64 pairs'
const MOST_ENTRIES: usize = 64;

// The list's rule: 'starts with day 41317 and 10 s; days rise strictly and seconds change by
// exactly one', and it has 1 to 64 pairs.
pub fn is_right(leaps: &[i64]) -> bool
    ensures { result ≡ is_list_right leaps.now }
{
    let leaps = Leaps(leaps);
    let count = leaps.len();
    if count == 0 || count > MOST_ENTRIES || !leaps.is_start_right() {
        return false;
    }
    // Two entries a turn: with one a turn a written UTC takes 42.7 ns for 34.6.
    let mut entry = 0;
    while entry + 2 < count {
        if !leaps.is_next_right(entry) {
            return false;
        }
        if !leaps.is_next_right(entry + 1) {
            return false;
        }
        entry += 2;
    }
    if entry + 1 < count {
        return leaps.is_next_right(entry);
    }
    true
}
