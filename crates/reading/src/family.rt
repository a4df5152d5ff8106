// A family of packets: its longest length, its verdicts and its record. A new family owes the laws of its model, and its longest length as a constant.
ghost use Rattle.std.specs.Prelude.{◌≡◌, ℕ, ◌<◌, ◌≤◌, length};
ghost use Rattle.reading.specs.Reading.{Model, Laws, Waits, Quiet};

use crate::message::Verdict;

pub trait Family {
    ghost LONGEST: { ℕ };

    // No packet of the family is longer.
    const LONGEST: usize;

    // What the family keeps of the packets that were accepted.
    type Record: Copy;

    ghost model: { Model Self.Record };

    ghost longest: { LONGEST ≡ model.longest };

    ghost laws: { Laws model };

    // The verdict on the first bytes at a place.
    fn judge(bytes: &[u8]) -> Verdict
        ensures value { result ≡ model.judge bytes.now };

    // A hint: a length above that of `prefix`. Bytes that begin with `prefix`, longer than it but shorter than this, are judged to wait.
    fn next_check(prefix: &[u8]) -> usize
        ensures above { length prefix.now < result }
        ensures waits { Waits model prefix.now result }
    {
        prefix.len() + 1
    }

    // A hint: each of so many of the first bytes is at fault alone.
    fn quiet(bytes: &[u8]) -> usize
        ensures within { result ≤ length bytes.now }
        ensures quiet { Quiet model bytes.now result }
    {
        0
    }

    // The record before the first packet.
    fn first() -> Self::Record
        ensures value { result ≡ model.first };

    // What the bytes of a whole packet make of a record.
    fn absorb(record: &mut Self::Record, packet: &[u8])
        ensures after { «record».new ≡ model.absorb «record».old packet.now };
}
