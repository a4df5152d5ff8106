// Why a meter grants no credit, and why a memory is not all records. A refusal carries a value, so its number is a match and no discriminant.
ghost use Rattle.std.specs.Prelude.{◌≡◌};
ghost use Rattle.line.specs.Refusals.{grant_number, record_number};

use std::fmt;

#[derive(Clone, Copy, PartialEq, Eq, Debug)]
pub enum GrantRefusal {
    // A credit above 65,536.
    AboveMost(u32),
}

impl GrantRefusal {
    pub fn number(self) -> u8
        ensures value { result ≡ grant_number self }
    {
        match self {
            GrantRefusal::AboveMost(_) => 3,
        }
    }
}

#[derive(Clone, Copy, PartialEq, Eq, Debug)]
pub enum RecordRefusal {
    // A record whose length or content is cut short, by the place of its length.
    Malformed(usize),
}

impl RecordRefusal {
    pub fn number(self) -> u8
        ensures value { result ≡ record_number self }
    {
        match self {
            RecordRefusal::Malformed(_) => 16,
        }
    }
}

// Each text is its refusal's own, so the two share nothing but the number in front.
impl fmt::Display for GrantRefusal {
    fn fmt<W: fmt::Write>(&self, f: &mut fmt::Formatter<W>) -> fmt::Result {
        let number = self.number();
        match self {
            GrantRefusal::AboveMost(credit) => write!(
                f,
                "refusal {number}: a credit of {credit} is above 65,536"
            ),
        }
    }
}

impl fmt::Display for RecordRefusal {
    fn fmt<W: fmt::Write>(&self, f: &mut fmt::Formatter<W>) -> fmt::Result {
        let number = self.number();
        match self {
            RecordRefusal::Malformed(place) => write!(
                f,
                "refusal {number}: the record at byte {place} is cut short"
            ),
        }
    }
}
