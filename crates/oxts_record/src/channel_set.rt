// The channels heard so far, as 256 bits.
ghost use Rattle.std.specs.Prelude.{◌≡◌, ℕ, ◌<◌, ◌||◌, ◌==◌};
ghost use Rattle.oxts_record.specs.ChannelSets.{no_channels, has, with_channel, members};

// Four words, whose ones are counted: a byte for each channel would take eight times the memory.
#[derive(Clone, Copy)]
pub struct ChannelSet {
    words: [u64; 4],
}

impl ChannelSet {
    pub fn new() -> ChannelSet
        ensures value { result ≡ no_channels }
    {
        ChannelSet { words: [0; 4] }
    }

    pub fn contains(&self, channel: u8) -> bool
        ensures value { result ≡ has self.now channel }
    {
        self.words[usize::from(channel) / 64] >> (channel % 64) & 1 == 1
    }

    pub fn insert(&mut self, channel: u8)
        ensures value { self.new ≡ with_channel self.old channel }
        ensures members { (k : ℕ) → k < 256 → has self.new k ≡ (k == channel || has self.old k) }
    {
        self.words[usize::from(channel) / 64] |= 1 << (channel % 64);
    }

    // How many channels are in the set.
    pub fn count(&self) -> u32
        ensures value { result ≡ members self.now }
    {
        let [a, b, c, d] = self.words;
        a.count_ones() + b.count_ones() + c.count_ones() + d.count_ones()
    }
}
