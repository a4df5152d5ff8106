// What a family says of bytes, and the messages that a reading makes of it.
ghost use Rattle.std.specs.Prelude.{◌≡◌};
ghost use Rattle.reading.specs.Kinds.{kind_bit};
ghost use Rattle.reading.specs.Reading.{fault_body};

use std::fmt;

// The kind of a message; its number is its bit in a sum of kinds.
#[derive(Clone, Copy, PartialEq, Eq, Debug)]
pub enum Kind {
    Inertial = 1,
    Solution = 2,
    Status = 4,
    Passed = 8,
    Fault = 16,
}

impl Kind {
    pub fn bit(self) -> u8
        ensures value { result ≡ kind_bit self }
    {
        self as u8
    }
}

// What a family tells of a packet: a message without number and place.
// The code is a plain number here and in a message: its kind gives what it means.
#[derive(Clone, Copy, PartialEq, Eq, Debug)]
pub struct Body {
    pub kind: Kind,
    pub code: u8,
    pub quantities: [i64; 9],
}

// Why bytes are no packet: the cause, the byte found, and the value expected there.
// The cause is a plain number: each family brings its own, which the reading does not know.
#[derive(Clone, Copy, PartialEq, Eq, Debug)]
pub struct Defect {
    pub cause: u8,
    pub found: u8,
    pub expected: u8,
}

impl From<Defect> for Body {
    ghost from_gives = { λ defect body. body ≡ fault_body defect };

    fn from(defect: Defect) -> Body {
        let found = i64::from(defect.found);
        let expected = i64::from(defect.expected);
        Body {
            kind: Kind::Fault,
            code: defect.cause,
            quantities: [found, expected, 0, 0, 0, 0, 0, 0, 0],
        }
    }
}

// What a family says of the first bytes at a place.
#[derive(Clone, Copy, PartialEq, Eq, Debug)]
pub enum Verdict {
    // More bytes are needed.
    Wait,
    // More bytes are needed, and these already tell something.
    Early(Body),
    // No packet begins here.
    Fault(Defect),
    // These bytes are a packet.
    Whole(Body),
}

// A message has a number, from 1 upward, and the place of the bytes that it tells of.
// A body's parts stand flat beside them, since every program reads and prints them so: a `Body` inside would be no plainer.
#[derive(Clone, Copy, PartialEq, Eq, Debug)]
pub struct Message {
    pub kind: Kind,
    pub number: u64,
    pub place: u64,
    pub code: u8,
    pub quantities: [i64; 9],
}

impl fmt::Display for Message {
    fn fmt<W: fmt::Write>(&self, f: &mut fmt::Formatter<W>) -> fmt::Result {
        write!(
            f,
            "message {} kind {} place {} code {} :",
            self.number,
            self.kind.bit(),
            self.place,
            self.code
        )?;
        for quantity in &self.quantities {
            write!(f, " {quantity}")?;
        }
        Ok(())
    }
}
