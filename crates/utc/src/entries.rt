// A list of leap seconds, its entries and their rule.
ghost use Rattle.std.specs.Prelude.{◌≡◌, ◌<◌, ◌≤◌, eqb, nat_abs};
ghost use Rattle.numbers.specs.Signs.{gap};
ghost use Rattle.utc.specs.Asked.{Followed};
ghost use Rattle.utc.specs.Leaps.{entries, first_day, is_next_right, is_start_right, seconds};

// 'starts with day 41317 and 10 s'
pub const FIRST_DAY: i64 = 41_317;

const FIRST_SECONDS: i64 = 10;

// 'seconds change by exactly one'. The seconds before are within 100 of 0, as those of a list that
// was right so far are. By `abs_diff` a UTC reading takes a third more time.
fn change_by_one(from: i64, to: i64) -> bool
    requires { nat_abs from ≤ 100 }
    ensures { result ≡ eqb (gap from to) 1 }
{
    to == from + 1 || to == from - 1
}

// A list as it is lent, flat: first day, seconds, first day, seconds, and so on.
#[derive(Clone, Copy)]
pub struct Leaps<'a>(pub &'a [i64]);

impl Leaps<'_> {
    #[tactic(auto, unfolding(crate::specs::Leaps::entries))]
    pub fn len(self) -> usize
        ensures { result ≡ entries self.entry.0.now }
    {
        self.0.len() / 2
    }

    #[tactic(auto, unfolding(crate::specs::Leaps::entries, crate::specs::Leaps::first_day))]
    pub fn first_day(self, entry: usize) -> i64
        requires { entry < entries self.0.now }
        ensures { result ≡ first_day self.entry.0.now entry }
    {
        self.0[2 * entry]
    }

    #[tactic(auto, unfolding(crate::specs::Leaps::entries, crate::specs::Leaps::seconds))]
    pub fn seconds(self, entry: usize) -> i64
        requires { entry < entries self.0.now }
        ensures { result ≡ seconds self.entry.0.now entry }
    {
        self.0[2 * entry + 1]
    }

    #[tactic(auto, unfolding(crate::specs::Leaps::is_start_right))]
    pub fn is_start_right(self) -> bool
        requires { 0 < entries self.0.now }
        ensures { result ≡ is_start_right self.entry.0.now }
    {
        self.first_day(0) == FIRST_DAY && self.seconds(0) == FIRST_SECONDS
    }

    // 'days rise strictly and seconds change by exactly one', from an entry to the next.
    #[tactic(auto, unfolding(crate::specs::Leaps::is_next_right, crate::specs::Leaps::entries))]
    pub fn is_next_right(self, entry: usize) -> bool
        requires { Followed self.0.now entry }
        ensures { result ≡ is_next_right self.entry.0.now entry }
    {
        self.first_day(entry) < self.first_day(entry + 1)
            && change_by_one(self.seconds(entry), self.seconds(entry + 1))
    }
}
