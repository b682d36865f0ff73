// What the desk says no with.

// One of 'Numbers the desk says no with', and the place told. The number is no enum of reasons: the
// lists of tests tell numbers (`numbers.Tests.Test`), and the promises speak of them.
#[derive(Clone, Copy, Debug, PartialEq, Eq)]
pub struct Refusal {
    pub number: u32,
    pub place: u64,
}
