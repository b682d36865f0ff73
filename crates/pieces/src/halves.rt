// A number of 64 bits taken apart into two pieces, and put together of them.
ghost use Rattle.std.specs.Prelude.{◌≡◌, ◌+◌, ◌*◌, ◌/◌, ◌%◌};
ghost use Rattle.pieces.specs.Pieces.{base};

// The low piece, and the one above it.
pub fn halves(n: u64) -> (u32, u32)
    ensures low { result.0 ≡ n % base }
    ensures high { result.1 ≡ n / base }
{
    ((n % 4_294_967_296) as u32, (n / 4_294_967_296) as u32)
}

// What two pieces stand for.
pub fn joined(low: u32, high: u32) -> u64
    ensures { result ≡ low + base * high }
{
    u64::from(low) + 4_294_967_296 * u64::from(high)
}
