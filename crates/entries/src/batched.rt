// What a batch is refused with.
ghost use Rattle.std.specs.Prelude.{◌≡◌};

use scales::refusal::Refusal;

// 'the earliest refusal is the batch's, with its index'
#[derive(Clone, Copy, Debug, PartialEq, Eq)]
pub struct RefusedAt {
    pub refusal: Refusal,
    pub index: u64,
}

// A refusal of all entries at once has the index 0.
impl From<Refusal> for RefusedAt {
    ghost from_gives = { λ r a. a ≡ record { refusal = r; index = 0 } };

    fn from(refusal: Refusal) -> RefusedAt {
        RefusedAt { refusal, index: 0 }
    }
}
