// Lines of bytes, and layers over any line. A line means the list of bytes that wait in it; one call takes some of them.
// What reads a line knows only that meaning, so a new line owes only its own proof.
#![tactic(auto)]

pub mod consume;
mod copies;
pub mod datagram;
pub mod line;
pub mod meter;
pub mod opener;
pub mod plain;
pub mod refusal;
