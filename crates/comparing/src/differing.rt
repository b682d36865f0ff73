// How far a granule of one table is from the same granule of another, both read where they lie.
ghost use Rattle.std.specs.Prelude.{◌≡◌, pos, get_or, ◌<◌};
ghost use Rattle.image.specs.Image.{granule_stored};
ghost use Rattle.comparing.specs.Asked.{Readable, Pairs, IsChange};

use granule::Units;
use image::take::coefficient;

// 'the largest coefficient difference and the sum of the absolute differences', in coefficient
// units.
#[derive(Clone, Copy, Debug, PartialEq, Eq)]
pub struct Change {
    pub largest: u64,
    pub sum: u64,
}

// The granules of an accepted table: its bytes and its degree.
#[derive(Clone, Copy)]
pub struct Granules<'a> {
    pub bytes: &'a [u8],
    pub degree: usize,
}

impl Granules<'_> {
    // Coefficient k of a granule, 'a missing coefficient counting as zero'.
    fn coefficient_or_zero(&self, granule: usize, k: usize) -> Units
        requires { Readable self.now.bytes.now self.now.degree granule }
        ensures { result.0 ≡ get_or
            (granule_stored self.now.bytes.now self.now.degree granule) k (pos 0) }
    {
        if self.degree < k {
            return Units(0);
        }
        Units(coefficient(self.bytes, granule, k))
    }
}

// Two accepted tables that have so many granules each.
#[derive(Clone, Copy)]
pub struct Tables<'a> {
    pub first: Granules<'a>,
    pub second: Granules<'a>,
    pub count: usize,
    ghost pairs: { Pairs first.bytes.now first.degree second.bytes.now second.degree count },
}

impl Tables<'_> {
    // What changed in a granule.
    pub fn change_of(&self, granule: usize) -> Change
        requires { granule < self.now.count }
        ensures { IsChange (granule_stored self.now.first.bytes.now self.now.first.degree granule)
            (granule_stored self.now.second.bytes.now self.now.second.degree granule) result }
    {
        let width = self.first.degree.max(self.second.degree) + 1;
        let mut largest = 0u64;
        let mut sum = 0u64;
        for k in 0..width {
            let c = self.first.coefficient_or_zero(granule, k);
            let d = self.second.coefficient_or_zero(granule, k);
            let by = c.0.abs_diff(d.0);
            largest = largest.max(by);
            sum += by;
        }
        Change { largest, sum }
    }
}
