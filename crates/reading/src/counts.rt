// The numbers of a reading.
use std::fmt;

#[derive(Clone, Copy, PartialEq, Eq, Debug)]
pub struct Counts {
    // Bytes read, each of them accepted, skipped or held.
    pub pumped: u64,
    pub accepted: u64,
    pub skipped: u64,
    pub held: u64,
    // Whole packets, and those among them that are passed over.
    pub whole: u64,
    pub passed: u64,
    // Messages that tell of a fault, and all messages.
    pub faults: u64,
    pub messages: u64,
}

impl fmt::Display for Counts {
    fn fmt<W: fmt::Write>(&self, f: &mut fmt::Formatter<W>) -> fmt::Result {
        let Counts {
            pumped,
            accepted,
            skipped,
            held,
            whole,
            passed,
            faults,
            messages,
        } = *self;
        write!(
            f,
            "pumped {pumped} accepted {accepted} skipped {skipped} held {held} whole {whole} passed {passed} faults {faults} messages {messages}"
        )
    }
}
