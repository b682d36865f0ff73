// The list of the granules that differ: how many they are, and their entries.
ghost use Rattle.std.specs.Prelude.{◌≡◌, ◌*◌, ◌≤◌, leb, length};
ghost use Rattle.image.specs.Image.{granule_stored};
ghost use Rattle.comparing.specs.Changes.{changes_to};
ghost use Rattle.comparing.specs.Asked.{EntryFits, entry_put, HasPut};

use crate::differing::{Change, Tables};

// 'An entry is three whole numbers: granule, largest, sum.'
fn put_entry(entries: &mut [i64], at: usize, granule: usize, change: Change)
    requires { EntryFits entries.old at granule change }
    ensures { entries.new ≡ entry_put entries.old at granule change }
{
    let entry = [granule as i64, change.largest as i64, change.sum as i64];
    entries[at..at + 3].copy_from_slice(&entry);
}

impl Tables<'_> {
    // How many granules differ.
    fn count_changes(&self) -> usize
        ensures { result ≡ length (changes_to
            (granule_stored self.now.first.bytes.now self.now.first.degree)
            (granule_stored self.now.second.bytes.now self.now.second.degree) self.now.count) }
    {
        (0..self.count)
            .filter(|&g| self.change_of(g).sum > 0)
            .count()
    }

    // Whether a list of so many numbers has room for the entries. One with room for every granule
    // has, so that granules are counted only where there is less.
    pub fn has_room(&self, many: usize) -> bool
        ensures { result ≡ leb (3 * length (changes_to
            (granule_stored self.now.first.bytes.now self.now.first.degree)
            (granule_stored self.now.second.bytes.now self.now.second.degree)
            self.now.count)) many }
    {
        3 * self.count <= many || 3 * self.count_changes() <= many
    }

    // The entries of those that differ, to the front of the list, and how many they are; the rest
    // of the list stays.
    pub fn put_changes(&self, entries: &mut [i64]) -> usize
        requires { 3 * length (changes_to
            (granule_stored self.now.first.bytes.now self.now.first.degree)
            (granule_stored self.now.second.bytes.now self.now.second.degree)
            self.now.count) ≤ length entries.old }
        ensures { HasPut (changes_to
            (granule_stored self.now.first.bytes.now self.now.first.degree)
            (granule_stored self.now.second.bytes.now self.now.second.degree)
            self.now.count) entries.old entries.new result }
    {
        let mut at = 0;
        for g in 0..self.count {
            let change = self.change_of(g);
            if change.sum > 0 {
                put_entry(entries, at, g, change);
                at += 3;
            }
        }
        at / 3
    }
}
