// What it means to read packets out of a stream of bytes, for every family of packets.
// A family brings its verdicts and its record, a sink takes the messages; the reading of a byte string is defined in specs/Reading.antt.
#![tactic(auto)]

pub mod counts;
pub mod family;
pub mod message;
pub mod refusal;
pub mod sink;
pub mod theorems;
