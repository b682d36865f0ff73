// What the desk answers: an epoch and the steps walked, or a refusal.
ghost use Rattle.std.specs.Prelude.{◌≡◌};
ghost use Rattle.scales.specs.Answers.{kept_in};

use crate::scale::Scale;
use crate::tick::valid;

// A tick of a scale, past Julian date 2443144.5003725 as that scale reads it.
#[derive(Clone, Copy, Debug, PartialEq, Eq)]
pub struct Epoch {
    pub scale: Scale,
    pub tick: i64,
}

// What a conversion answers where it is not refused: 'the tick and the number of steps walked (0 to
// 4)'.
#[derive(Clone, Copy, Debug, PartialEq, Eq)]
pub struct Converted {
    pub epoch: Epoch,
    pub steps: u32,
}

// Why a step reaches no epoch of the neighbouring scale: it is 'outside the table', refusal 6, or
// it left the range, refusal 4. Their place is known to the walk alone.
#[derive(Clone, Copy, Debug, PartialEq, Eq)]
pub enum Outside {
    Table,
    Range,
}

// The epoch of a scale that a step came to, where its tick is valid.
#[tactic(auto, unfolding(crate::specs::Answers::kept_in))]
pub fn keep(scale: Scale, tick: i64) -> Result<Epoch, Outside>
    ensures { result ≡ kept_in scale tick }
{
    if valid(tick) {
        Ok(Epoch { scale, tick })
    } else {
        Err(Outside::Range)
    }
}
