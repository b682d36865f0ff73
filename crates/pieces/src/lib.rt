// Numbers wider than 64 bits, in 32-bit pieces: no product on the way is of more than 32 by 32
// bits, and none is divided. 'With the product carried in four 32-bit pieces': a [u32; 4], the low
// piece first, is passed and returned by value through multiply, add and shift. `share` is the
// rounded product of the linear steps, `signed` that of the granule.
//
// Both are rounded to the nearest by a half of the shift's unit that goes in before the product is
// whole, where there is room for it; the shift then rounds down.
#![tactic(auto)]

mod halves;
mod product;
pub mod share;
mod shift;
pub mod signed;
