// A line over the caller's bytes.
ghost use Rattle.std.specs.Prelude.{◌≡◌, ◌<◌, min, max, length, refl};
ghost use Rattle.std.proofs.Common.{◌∙◌};
ghost use Rattle.line.specs.Lines.{Taken};

use crate::copies::copy_front;
use crate::line::Line;

// One take gives at most `most` bytes, as a device with a small buffer does.
#[derive(Drop)]
pub struct Plain<'a> {
    bytes: &'a [u8],
    most: usize,
    ghost some: { 0 < most },
}

impl<'a> Plain<'a> {
    // At most 0 bytes at a time would never give any: it counts as 1.
    pub fn new(bytes: &'a [u8], most: usize) -> Self
        ensures waits { result.bytes.now ≡ bytes.now }
        ensures most { result.most ≡ max most 1 }
    {
        Plain {
            bytes,
            most: most.max(1),
        }
    }
}

impl Line for Plain<'_> {
    ghost waiting = { λ s. s.bytes.now };

    ghost steps = { λ s k t. t.most ≡ s.most };

    ghost joins = { record { stays = λ s. refl; joins = λ s t u j k p q. q ∙ p } };

    fn take(&mut self, buf: &mut [u8]) -> usize
        ensures steps { self.new.most ≡ self.old.most }
        ensures taken { Taken self.old.bytes.now buf.old result self.new.bytes.now buf.new }
        ensures count { result ≡ min (min (length self.old.bytes.now) (length buf.old)) self.old.most }
    {
        let most = self.bytes.len().min(self.most);
        let k = copy_front(&self.bytes[..most], buf);
        self.bytes = &self.bytes[k..];
        k
    }
}
