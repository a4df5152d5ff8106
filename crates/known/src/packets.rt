// Packets for the tests, and readers that have read some.
use oxts_record::family::Ncom;
use reader::reader::Reader;
use reading::message::Message;
use reading::sink::Sink;
use std::process::Abort;
use std::test::Fail;

// Lets messages go: the tests ask the reader.
#[derive(Drop)]
pub struct Ignored;

impl Sink for Ignored {
    ghost took = { λ _ _ _. Unit {0} };

    fn publish(&mut self, _: Message) {}
}

// The tests' own sum: it shares nothing with the code that they test.
fn sum(bytes: &[u8]) -> u8 {
    bytes
        .iter()
        .fold(0, |sum: u8, byte| sum.wrapping_add(*byte))
}

// An NCOM packet with `value` in its time, its first rate, its first velocity and the first byte of its channel.
pub fn packet(status: u8, channel: u8, value: u8) -> [u8; 72] {
    let mut bytes = [0; 72];
    bytes[0] = 0xE7;
    bytes[1] = value;
    bytes[12] = value;
    bytes[21] = status;
    bytes[43] = value;
    bytes[62] = channel;
    bytes[63] = value;
    sealed(bytes)
}

// The packet with its checksums set.
pub fn sealed(mut bytes: [u8; 72]) -> [u8; 72] {
    if bytes[21] != 11 {
        bytes[22] = sum(&bytes[1..22]);
        bytes[61] = sum(&bytes[1..61]);
    }
    bytes[71] = sum(&bytes[1..71]);
    bytes
}

// A reader that was fed one packet after another.
pub fn read_packets(packets: &[[u8; 72]]) -> Result<Reader<Ncom>, Fail> {
    let mut reader = Reader::new();
    for packet in packets {
        reader.feed(packet, &mut Ignored)?;
    }
    Ok(reader)
}

// A reader that was fed the first `cut` of the bytes, and then the rest.
pub fn read_in_two(rt: &impl Abort, bytes: &[u8], cut: usize) -> Result<Reader<Ncom>, Fail> {
    assert!(rt; cut <= bytes.len());
    let mut reader = Reader::new();
    reader.feed(&bytes[0..cut], &mut Ignored)?;
    reader.feed(&bytes[cut..], &mut Ignored)?;
    Ok(reader)
}
