// The record of a packet family: a navigation, with a mark of the family that it belongs to.
ghost use Rattle.std.specs.Prelude.{◌≡◌};
ghost use Rattle.oxts_record.specs.ChannelSets.{members};
ghost use Rattle.oxts.specs.declared.format.Format.{Format};
ghost use Rattle.oxts_record.specs.Navigations.{channel_of};
ghost use Rattle.oxts_record.specs.Questions.{field_of, full_time_of};
ghost use Rattle.oxts_record.specs.Records.{first_record, record_after};

use crate::navigation::Navigation;
use crate::snapshot::Snapshot;
use oxts::format::Format;
use oxts_fields::refusal::Refusal;
use std::marker::PhantomData;

// What marks a family and its record: it stands for the family's format.
pub trait Marker {
    ghost FORMAT: { Format };

    const FORMAT: Format;
}

// What is proved of channels needs no family: so the navigation is apart, and the record passes questions on to it.
#[derive_where(Clone, Copy)]
pub struct Record<M> {
    of: PhantomData<M>,
    navigation: Navigation,
}

impl<M> Record<M> {
    pub(crate) fn new() -> Record<M>
        ensures value { result ≡ first_record }
    {
        Record {
            of: PhantomData,
            navigation: Navigation::new(),
        }
    }

    pub fn snapshot(&self) -> Snapshot
        ensures value { result ≡ self.now.navigation.latest }
    {
        self.navigation.snapshot()
    }

    pub fn heard_count(&self) -> u32
        ensures value { result ≡ members self.now.navigation.heard }
    {
        self.navigation.heard_count()
    }

    pub fn channel(&self, channel: u8) -> Option<[u8; 8]>
        ensures value { result ≡ channel_of self.now.navigation channel }
    {
        self.navigation.channel(channel)
    }
}

impl<M: Marker> Record<M> {
    pub(crate) fn absorb(&mut self, packet: &[u8])
        ensures after { self.new ≡ record_after M.FORMAT self.old packet.now }
    {
        self.navigation.absorb(M::FORMAT, packet);
    }

    // The value of a field of a status channel; refused with the lowest number that applies.
    pub fn field(&self, channel: u32, number: u32) -> Result<i64, Refusal>
        ensures value { result ≡ field_of M.FORMAT self.now.navigation channel number }
    {
        self.navigation.field(M::FORMAT, channel, number)
    }

    // Milliseconds since GPS time began: the minutes of channel 0, and the latest time.
    pub fn full_time(&self) -> Result<u64, Refusal>
        ensures value { result ≡ full_time_of self.now.navigation }
    {
        self.navigation.full_time()
    }
}
