// The two packet formats, and where they differ: each number by a match of its own, which reads as plainly as a table of both.
ghost use Rattle.std.specs.Prelude.{◌≡◌};
ghost use Rattle.oxts.specs.Formats.{longest_of, channel_place};

#[derive(Clone, Copy, PartialEq, Eq, Debug)]
pub enum Format {
    Ncom,
    Mcom,
}

impl Format {
    // The length of a packet.
    pub const fn longest(self) -> usize
        ensures value { result ≡ longest_of self }
    {
        match self {
            Format::Ncom => 72,
            Format::Mcom => 84,
        }
    }

    // The place of the status channel's number; the eight bytes of Batch S follow it, and the last checksum follows those.
    pub fn channel_place(self) -> usize
        ensures value { result ≡ channel_place self }
    {
        match self {
            Format::Ncom => 62,
            Format::Mcom => 74,
        }
    }
}
