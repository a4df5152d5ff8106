// A layer that lets through as many bytes as were granted.
ghost use Rattle.std.specs.Prelude.{◌≡◌, take};
ghost use Rattle.line.specs.Meters.{Granted};
ghost use Rattle.line.specs.Steps.{Metered, metered_joins};

use crate::line::Line;
use crate::refusal::GrantRefusal;

// The most credit that a meter can have.
pub const MOST_CREDIT: u32 = 65_536;

// The line below, as far as a credit goes: each byte taken costs one.
#[derive(Drop)]
pub struct Meter<L: Line> {
    below: L,
    credit: u32,
}

impl<L: Line> Meter<L> {
    pub fn new(below: L) -> Self
        ensures value { result ≡ record { below = below; credit = 0 } }
    {
        Meter { below, credit: 0 }
    }

    // Sets the credit, whatever it was.
    pub fn grant(&mut self, credit: u32) -> Result<(), GrantRefusal>
        ensures granted { Granted self.old credit result self.new }
    {
        if credit > MOST_CREDIT {
            return Err(GrantRefusal::AboveMost(credit));
        }
        self.credit = credit;
        Ok(())
    }

    // The line below, with what is left in it.
    pub fn into_below(self) -> L
        ensures value { result ≡ self.below }
    {
        self.below
    }
}

impl<L: Line> Line for Meter<L> {
    ghost waiting = { λ s. take s.credit (L.Line.waiting s.below) };

    ghost steps = { Metered L.Line.waiting L.Line.steps };

    ghost joins = { metered_joins L.Line.waiting L.Line.steps L.Line.joins };

    fn take(&mut self, buf: &mut [u8]) -> usize {
        let most = buf.len().min(self.credit as usize);
        let k = self.below.take(&mut buf[0..most]);
        self.credit -= k as u32;
        k
    }
}
