// What a list that is right says of a day.
ghost use Rattle.std.specs.Prelude.{◌≡◌, true, pos, ◌+ℤ◌, ◌≤ℤ◌};
ghost use Rattle.utc.specs.Leaps.{is_list_right, list_day};
ghost use Rattle.utc.specs.Days.{day_start, entry_on, seconds_on};
ghost use Rattle.utc.specs.Asked.{EntryOfDay, NearListed};

use crate::entries::Leaps;
use crate::tai::tai_by;

// A list that has been judged by refusal 7.
#[derive(Clone, Copy)]
pub struct Judged<'a> {
    pub leaps: Leaps<'a>,
    pub ghost right: { is_list_right leaps.0.now ≡ true },
}

impl Judged<'_> {
    // The entry of a day: the last whose first day is not after it. By halves: it is one of the
    // `left` entries from `low` on, and 64 are one after six halvings. With as many turns for every
    // list the loop is no loop in machine code, and takes each half without a jump that a processor
    // would have to guess.
    pub fn entry_on(self, day: i64) -> usize
        requires { pos list_day ≤ℤ day }
        ensures { result ≡ entry_on self.entry.leaps.0.now day }
    {
        let mut low: usize = 0;
        let mut left = self.leaps.len();
        for _turn in 0..6_usize {
            let half = left / 2;
            if self.leaps.first_day(low + half) <= day {
                low += half;
            }
            left -= half;
        }
        low
    }

    // The seconds on the day after a day, by its entry. The day after may be none of 64 bits, but
    // the day before the next entry's first is one.
    pub fn seconds_after(self, day: i64, entry: usize) -> i64
        requires { EntryOfDay self.leaps.0.now day entry }
        ensures { result ≡ seconds_on self.entry.leaps.0.now (day +ℤ pos 1) }
    {
        let next = entry + 1;
        if next < self.leaps.len() && self.leaps.first_day(next) - 1 <= day {
            self.leaps.seconds(next)
        } else {
            self.leaps.seconds(entry)
        }
    }

    // The TAI tick at which a day begins.
    pub fn day_start(self, day: i64) -> i64
        requires { NearListed day }
        ensures { result ≡ day_start self.entry.leaps.0.now day }
    {
        let entry = self.entry_on(day);
        tai_by(self.leaps.seconds(entry), day, 0)
    }
}
