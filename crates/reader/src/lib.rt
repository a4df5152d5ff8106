// Reads the packets of any family out of a stream of bytes, however the stream is cut.
// The reader keeps counts, latest message and record, and hands each message to a sink.
#![tactic(auto)]

mod ledger;
pub mod reader;
mod scan;
mod window;
