// What the desk does not read as a date part or as seconds: refusals 2 and 3.
ghost use Rattle.std.specs.Prelude.{◌≡◌, ◌&&◌};
ghost use Rattle.std.specs.Float.Ieee.Scale.{finite};
ghost use Rattle.dates.specs.Doubles.{beyond};
ghost use Rattle.dates.specs.Readings.{most_days, most_seconds};
ghost use Rattle.dates.specs.Inner.{passing};

const MOST_DAYS: f64 = 5_000_000.0;

const MOST_SECONDS: f64 = 10_000_000_000.0;

// Neither 'NaN or infinite': 1.0 / 0.0 is the infinity, and no comparison with a NaN holds.
pub fn is_finite(x: f64) -> bool
    ensures { result ≡ finite x }
{
    x < 1.0 / 0.0 && x > -1.0 / 0.0
}

// 'date part beyond 5,000,000 days either way'. Days and seconds have a test each: a float can be
// no const parameter, and with the limit handed over each caller would have to say which it means.
pub fn beyond_days(x: f64) -> bool
    ensures { result ≡ beyond most_days x }
{
    x > MOST_DAYS || x < -MOST_DAYS
}

// A date part that is neither: no comparison with a NaN holds, and the infinities are beyond.
fn passes_days(x: f64) -> bool
    ensures { result ≡ passing most_days x }
{
    x <= MOST_DAYS && -MOST_DAYS <= x
}

// Both parts of a date.
pub fn both_pass(first: f64, second: f64) -> bool
    ensures { result ≡ (passing most_days first && passing most_days second) }
{
    passes_days(first) && passes_days(second)
}

// 'seconds beyond 10^10', either way
pub fn beyond_seconds(x: f64) -> bool
    ensures { result ≡ beyond most_seconds x }
{
    x > MOST_SECONDS || x < -MOST_SECONDS
}
