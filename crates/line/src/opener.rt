// A layer that unwraps carrier frames, each a length byte n and then n bytes of content; n = 0 is filler.
ghost use Rattle.std.specs.Prelude.{◌≡◌};
ghost use Rattle.line.specs.Lines.{contents};
ghost use Rattle.line.specs.Steps.{Opened, opened_joins};

use crate::consume::take_byte;
use crate::line::Line;

#[derive(Drop)]
pub struct Opener<L: Line> {
    below: L,
    // How many bytes of the current frame's content are still to come.
    due: u8,
}

impl<L: Line> Opener<L> {
    pub fn new(below: L) -> Self
        ensures value { result ≡ record { below = below; due = 0 } }
    {
        Opener { below, due: 0 }
    }

    // The line below, with what is left in it.
    pub fn into_below(self) -> L
        ensures value { result ≡ self.below }
    {
        self.below
    }
}

impl<L: Line> Line for Opener<L> {
    ghost waiting = { λ s. contents s.due (L.Line.waiting s.below) };

    ghost steps = { Opened L.Line.waiting L.Line.steps };

    ghost joins = { opened_joins L.Line.waiting L.Line.steps L.Line.joins };

    // Passes over headers and filler until content is due or nothing waits below.
    fn take(&mut self, buf: &mut [u8]) -> usize {
        if buf.is_empty() {
            return 0;
        }
        // It goes on by what comes from below, and counts nothing.
        while self.due == 0 {
            let Some(length) = take_byte(&mut self.below) else {
                return 0;
            };
            self.due = length;
        }
        // A meter ends in the same three lines: a function for both would need a contract of its own, and be no plainer.
        let most = buf.len().min(usize::from(self.due));
        let k = self.below.take(&mut buf[0..most]);
        self.due -= k as u8;
        k
    }
}
