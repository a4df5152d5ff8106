// Why a question to the record has no answer.
ghost use Rattle.std.specs.Prelude.{◌≡◌};
ghost use Rattle.oxts_fields.specs.Refusals.{refusal_number};

use std::fmt;

#[derive(Clone, Copy, PartialEq, Eq, Debug)]
pub enum Refusal {
    // The format's table has no such channel.
    NoChannel = 9,
    // The channel has no such field.
    NoField = 10,
    // The channel was not heard.
    NotHeard = 11,
    // The field, or the time, is not valid.
    NotValid = 12,
}

impl Refusal {
    pub fn number(self) -> u8
        ensures value { result ≡ refusal_number self }
    {
        self as u8
    }
}

impl fmt::Display for Refusal {
    fn fmt<W: fmt::Write>(&self, f: &mut fmt::Formatter<W>) -> fmt::Result {
        let number = self.number();
        let reason = match self {
            Refusal::NoChannel => "the format has no such channel",
            Refusal::NoField => "the channel has no such field",
            Refusal::NotHeard => "the channel was not heard",
            Refusal::NotValid => "not valid",
        };
        write!(f, "refusal {number}: {reason}")
    }
}
