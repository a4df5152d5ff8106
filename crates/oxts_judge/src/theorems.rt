// What is proved of the formats themselves.
ghost use Rattle.oxts_judge.specs.Packets.{AcceptsPackets};

// The packets that the manuals describe are accepted, and no others, whatever record R is kept.
pub fn packets_by_manual<R>()
    ensures packets { AcceptsPackets R }
{}
