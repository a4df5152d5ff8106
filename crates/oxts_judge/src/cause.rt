// Why bytes are no packet.
ghost use Rattle.std.specs.Prelude.{◌≡◌};
ghost use Rattle.oxts_judge.specs.Causes.{cause_number};

// A cause is told by its number.
#[derive(Clone, Copy, PartialEq, Eq, Debug)]
pub enum Cause {
    // The first byte is not the sync byte.
    Sync = 0,
    // The navigation status is reserved.
    Status = 1,
    // The checksum behind Batch A, behind Batch B, or at the end of the packet is wrong.
    InertialSum = 2,
    SolutionSum = 3,
    PacketSum = 4,
}

impl Cause {
    pub fn number(self) -> u8
        ensures value { result ≡ cause_number self }
    {
        self as u8
    }
}
