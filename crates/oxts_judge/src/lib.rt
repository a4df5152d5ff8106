// The verdict on the first bytes at a place, for NCOM and MCOM, and hints that make reading them fast.
// That just the packets that the manuals describe are accepted is proved in theorems.
#![tactic(auto)]

mod bodies;
pub mod cause;
pub mod hints;
pub mod judge;
pub mod theorems;
