// The fields of the status channels: one constant table for both formats, and one decoder that reads any field by it.
#![tactic(auto)]

pub mod ask;
mod decode;
pub mod layout;
pub mod refusal;
pub mod table;
