// What every line is.
ghost use Rattle.std.specs.Prelude.{ℕ, List};
ghost use Rattle.line.specs.Lines.{Taken};
ghost use Rattle.line.specs.Steps.{Joins};

pub trait Line {
    // The bytes that wait, the next one first.
    ghost waiting: { Self → List ℕ };

    // What else is known of a line from which k bytes in all were taken, so that its owner knows it again after lending it.
    ghost steps: { Self → ℕ → Self → Type 0 };

    ghost joins: { Joins steps };

    // Moves some of the bytes that wait, from the first on, to the front of `buf`, and answers how many.
    fn take(&mut self, buf: &mut [u8]) -> usize
        ensures steps { steps self.old result self.new }
        ensures taken { Taken (waiting self.old) buf.old result (waiting self.new) buf.new };
}

// A line that is lent is a line.
impl<L: Line> Line for &mut L {
    ghost waiting = { λ s. L.Line.waiting s.now };

    ghost steps = { λ s k t. L.Line.steps s.now k t.now };

    ghost joins = { record { stays = λ s. L.Line.joins.stays s.now; joins = λ s t u j k p q. L.Line.joins.joins s.now t.now u.now j k p q } };

    fn take(&mut self, buf: &mut [u8]) -> usize {
        (**self).take(buf)
    }
}
