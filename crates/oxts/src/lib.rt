// The packet formats NCOM and MCOM: words, navigation status, and the quantities of each batch.
// One definition serves both formats; they differ in their length and in what stands between byte 62 and the channel.
#![tactic(auto)]

pub mod batches;
pub mod format;
pub mod status;
pub mod words;
