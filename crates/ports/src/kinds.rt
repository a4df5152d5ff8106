// The kinds of messages that an open port wants.
ghost use Rattle.std.specs.Prelude.{◌≡◌, ◌<◌, ◌≤◌, ◌==◌, true, false, not, bit_and};
ghost use Rattle.std.specs.Result.{MatchResult};
ghost use Rattle.reading.specs.Kinds.{kind_bit};
ghost use Rattle.law.specs.Calls.{wantable};
ghost use Rattle.ports.specs.declared.refusal.OpenRefusal.TheVariants.{BadKinds};

use crate::refusal::OpenRefusal;
use reading::message::Kind;

// The sum of the bits of all kinds.
const ALL_KINDS: u32 = 31;

// The sum of the bits of some kinds.
#[derive(Clone, Copy)]
pub struct Kinds {
    sum: u8,
    ghost some: { 0 < sum },
    ghost known: { sum ≤ 31 },
}

impl Kinds {
    pub fn contains(self, kind: Kind) -> bool
        ensures value { result ≡ not (bit_and self.sum (kind_bit kind) == 0) }
    {
        self.sum & kind.bit() != 0
    }
}

impl TryFrom<u32> for Kinds {
    type Error = OpenRefusal;

    ghost try_from_gives = { λ sum r. MatchResult r (λ kinds. (wantable sum ≡ true) × (kinds.sum ≡ sum)) (λ e. (e ≡ BadKinds sum) × (wantable sum ≡ false)) };

    fn try_from(sum: u32) -> Result<Kinds, OpenRefusal> {
        if sum == 0 || sum > ALL_KINDS {
            return Err(OpenRefusal::BadKinds(sum));
        }
        Ok(Kinds { sum: sum as u8 })
    }
}
