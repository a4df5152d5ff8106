// A gateway: it pumps the bytes of lines into a reader, and hands the messages to eight ports.
// One law covers every run of it, for every family of packets and every line: see `Gateway::new`.
#![tactic(auto)]

pub mod gateway;
pub mod refusal;
