// What the packets of one device leave behind: the latest quantities, and the eight bytes of each status channel.
ghost use Rattle.std.specs.Prelude.{◌≡◌};
ghost use Rattle.oxts.specs.Status.{is_structure_a};
ghost use Rattle.oxts_record.specs.ChannelSets.{members};
ghost use Rattle.oxts_record.specs.Navigations.{first_navigation, channel_taken, navigation_after, channel_of};
ghost use Rattle.oxts_record.specs.Questions.{minutes_in, time_from, field_of, full_time_of};

use crate::channel_set::ChannelSet;
use crate::snapshot::Snapshot;
use oxts::format::Format;
use oxts::status::{Structure, structure_of};
use oxts::words::{byte_at, bytes_at};
use oxts_fields::ask;
use oxts_fields::refusal::Refusal;

// Bytes and marks of all channels are here, whatever was heard: a gateway takes the same memory throughout.
#[derive(Clone, Copy)]
pub struct Navigation {
    latest: Snapshot,
    channels: [[u8; 8]; 256],
    heard: ChannelSet,
}

fn is_structure_a(status: u8) -> bool
    ensures value { result ≡ is_structure_a status }
{
    matches!(structure_of(status), Some(Structure::StructureA))
}

// The minutes of channel 0, as the pattern of a signed number of 32 bits.
fn minutes_in(bytes: [u8; 8]) -> u32
    ensures value { result ≡ minutes_in bytes }
{
    let [a, b, c, d, ..] = bytes;
    u32::from_le_bytes([a, b, c, d])
}

// The full time of so many minutes and the latest status and time. A pattern above the largest positive number is that of a negative one.
fn time_from(minutes: u32, status: u8, time: Option<u16>) -> Result<u64, Refusal>
    ensures value { result ≡ time_from minutes status time }
{
    match time {
        Some(time) if minutes >= 1000 && minutes <= 0x7FFF_FFFF && status > 1 && time <= 59_999 => {
            Ok(u64::from(minutes) * 60_000 + u64::from(time))
        }
        _ => Err(Refusal::NotValid),
    }
}

impl Navigation {
    #[tactic(auto, unfolding(crate::specs::Navigations::zero_channels))]
    pub fn new() -> Navigation
        ensures value { result ≡ first_navigation }
    {
        Navigation {
            latest: Snapshot::new(),
            channels: [[0; 8]; 256],
            heard: ChannelSet::new(),
        }
    }

    fn take_channel(&mut self, format: Format, packet: &[u8])
        ensures after { self.new ≡ channel_taken format packet.now self.old }
    {
        let place = format.channel_place();
        let channel = byte_at(packet, place);
        self.channels[usize::from(channel)] = bytes_at(packet, place + 1);
        self.heard.insert(channel);
    }

    // What the bytes of a whole packet make of it: only a structure-A packet changes anything.
    pub fn absorb(&mut self, format: Format, packet: &[u8])
        ensures after { self.new ≡ navigation_after format self.old packet.now }
    {
        let status = byte_at(packet, 21);
        if is_structure_a(status) {
            self.latest.take(status, packet);
            if status != 0 {
                self.take_channel(format, packet);
            }
        }
    }

    pub fn snapshot(&self) -> Snapshot
        ensures value { result ≡ self.now.latest }
    {
        self.latest
    }

    // How many channels were heard.
    pub fn heard_count(&self) -> u32
        ensures value { result ≡ members self.now.heard }
    {
        self.heard.count()
    }

    // The latest eight bytes of a channel; none where it was not heard.
    pub fn channel(&self, channel: u8) -> Option<[u8; 8]>
        ensures value { result ≡ channel_of self.now channel }
    {
        self.heard
            .contains(channel)
            .then_some(self.channels[usize::from(channel)])
    }

    pub fn field(&self, format: Format, channel: u32, number: u32) -> Result<i64, Refusal>
        ensures value { result ≡ field_of format self.now channel number }
    {
        let heard = u8::try_from(channel)
            .ok()
            .and_then(|channel| self.channel(channel));
        ask::field(format, channel, number, heard)
    }

    pub fn full_time(&self) -> Result<u64, Refusal>
        ensures value { result ≡ full_time_of self.now }
    {
        let bytes = self.channel(0).ok_or(Refusal::NotHeard)?;
        time_from(minutes_in(bytes), self.latest.status, self.latest.time)
    }
}
