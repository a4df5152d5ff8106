// How people read the numbers of NCOM and MCOM packets: names, units and dates.
// Units turn a raw number into SI, exactly in decimal where the raw number is a whole one.
#![tactic(auto)]

pub mod calendar;
pub mod fields;
pub mod measure;
pub mod quantities;
