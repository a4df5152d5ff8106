// Why a port is not opened, is not closed or counted, or gives no message. A refusal carries what was asked, so its number is a match and no discriminant.
ghost use Rattle.std.specs.Prelude.{◌≡◌};
ghost use Rattle.ports.specs.declared.refusal.TakeRefusal.TheVariants.{Port};
ghost use Rattle.ports.specs.Refusals.{open_number, take_number, port_number};

use std::fmt;

// `NoPort` stands here and below: to nest a type for it would give each caller one more level to match, for one shared text.
#[derive(Clone, Copy, PartialEq, Eq, Debug)]
pub enum OpenRefusal {
    NoPort(u32),
    AlreadyOpen(u32),
    // What is wanted is no sum of kinds.
    BadKinds(u32),
}

impl OpenRefusal {
    pub fn number(self) -> u8
        ensures value { result ≡ open_number self }
    {
        match self {
            OpenRefusal::NoPort(_) => 4,
            OpenRefusal::AlreadyOpen(_) => 5,
            OpenRefusal::BadKinds(_) => 6,
        }
    }
}

impl fmt::Display for OpenRefusal {
    fn fmt<W: fmt::Write>(&self, f: &mut fmt::Formatter<W>) -> fmt::Result {
        let number = self.number();
        match self {
            OpenRefusal::NoPort(port) => write!(
                f,
                "refusal {number}: there is no port {port}, ports are 0 to 7"
            ),
            OpenRefusal::AlreadyOpen(port) => {
                write!(f, "refusal {number}: port {port} is open already")
            }
            OpenRefusal::BadKinds(wanted) => write!(
                f,
                "refusal {number}: {wanted} is no sum of kinds from 1 to 31"
            ),
        }
    }
}

// Two ways to be refused, so no `Option` or `Result`.
#[derive(Clone, Copy, PartialEq, Eq, Debug)]
pub enum PortRefusal {
    NoPort(u32),
    NotOpen(u32),
}

impl PortRefusal {
    pub fn number(self) -> u8
        ensures value { result ≡ port_number self }
    {
        match self {
            PortRefusal::NoPort(_) => 4,
            PortRefusal::NotOpen(_) => 7,
        }
    }
}

impl fmt::Display for PortRefusal {
    fn fmt<W: fmt::Write>(&self, f: &mut fmt::Formatter<W>) -> fmt::Result {
        let number = self.number();
        match self {
            PortRefusal::NoPort(port) => write!(
                f,
                "refusal {number}: there is no port {port}, ports are 0 to 7"
            ),
            PortRefusal::NotOpen(port) => { write!(f, "refusal {number}: port {port} is not open") }
        }
    }
}

// Two ways to be refused, so no `Option` or `Result`.
#[derive(Clone, Copy, PartialEq, Eq, Debug)]
pub enum TakeRefusal {
    Port(PortRefusal),
    NothingWaits(u32),
}

impl TakeRefusal {
    pub fn number(self) -> u8
        ensures value { result ≡ take_number self }
    {
        match self {
            TakeRefusal::Port(refusal) => refusal.number(),
            TakeRefusal::NothingWaits(_) => 8,
        }
    }
}

impl From<PortRefusal> for TakeRefusal {
    ghost from_gives = { λ refusal result. result ≡ Port refusal };

    fn from(error: PortRefusal) -> TakeRefusal {
        TakeRefusal::Port(error)
    }
}

impl fmt::Display for TakeRefusal {
    fn fmt<W: fmt::Write>(&self, f: &mut fmt::Formatter<W>) -> fmt::Result {
        match self {
            TakeRefusal::Port(refusal) => refusal.fmt(f),
            TakeRefusal::NothingWaits(port) => {
                let number = self.number();
                write!(f, "refusal {number}: nothing waits at port {port}")
            }
        }
    }
}
