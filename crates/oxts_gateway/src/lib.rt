// Gateways for NCOM and MCOM units, with the law at these families.
// `sessions` has callers that cite the law of their own runs.
#![tactic(auto)]

pub mod make;
pub mod sessions;
#[cfg(test)]
mod tests;
