// Why a reader takes no bytes.
ghost use Rattle.std.specs.Prelude.{◌≡◌};
ghost use Rattle.reading.specs.Refusals.{refusal_number};

use std::fmt;

// A refusal's discriminant is its number.
#[derive(Clone, Copy, PartialEq, Eq, Debug)]
pub enum Refusal {
    // More bytes would be read than a reader reads.
    PastLimit = 2,
}

impl Refusal {
    pub fn number(self) -> u8
        ensures value { result ≡ refusal_number self }
    {
        self as u8
    }
}

impl fmt::Display for Refusal {
    fn fmt<W: fmt::Write>(&self, f: &mut fmt::Formatter<W>) -> fmt::Result {
        match self {
            Refusal::PastLimit => write!(
                f,
                "refusal {}: more than 1,099,511,627,776 bytes in all",
                self.number()
            ),
        }
    }
}
