// What the packets of the formats NCOM and MCOM leave behind: the latest quantities and the status channels heard.
// The two families of packets are here, since a family brings its record.
#![tactic(auto)]

mod channel_set;
pub mod family;
mod navigation;
pub mod record;
pub mod snapshot;
pub mod theorems;
