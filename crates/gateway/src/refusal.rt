// Why nothing is pumped. A refusal carries the limit, so its number is a match and no discriminant.
ghost use Rattle.std.specs.Prelude.{◌≡◌};
ghost use Rattle.gateway.specs.Passing.{pump_number};

use std::fmt;

// Two ways to be refused, so no `Option` or `Result`.
#[derive(Clone, Copy, PartialEq, Eq, Debug)]
pub enum PumpRefusal {
    // A limit of 0 or above 4,096.
    BadLimit(u32),
    // With that limit, more than 2^40 bytes could be pumped in all.
    PastMost(u32),
}

impl PumpRefusal {
    pub fn number(self) -> u8
        ensures value { result ≡ pump_number self }
    {
        match self {
            PumpRefusal::BadLimit(_) => 1,
            PumpRefusal::PastMost(_) => 2,
        }
    }
}

impl fmt::Display for PumpRefusal {
    fn fmt<W: fmt::Write>(&self, f: &mut fmt::Formatter<W>) -> fmt::Result {
        let number = self.number();
        match self {
            PumpRefusal::BadLimit(limit) => write!(
                f,
                "refusal {number}: a limit of {limit} is not from 1 to 4,096"
            ),
            PumpRefusal::PastMost(limit) => write!(
                f,
                "refusal {number}: with {limit} more there could be more than 1,099,511,627,776 bytes in all"
            ),
        }
    }
}
