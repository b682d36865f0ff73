// The tick and its range.
ghost use Rattle.std.specs.Prelude.{◌≡◌};
ghost use Rattle.scales.specs.Tick.{is_valid};

// Whether a tick is a valid epoch: 'It must lie from -6·10^18 to 6·10^18, ends included.'
pub fn valid(tick: i64) -> bool
    ensures { result ≡ is_valid tick }
{
    -6_000_000_000_000_000_000 <= tick && tick <= 6_000_000_000_000_000_000
}
