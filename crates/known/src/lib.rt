#![tactic(auto)]

// Streams, words, packets and lines whose results are known: one table about the definitions, callers of lines, and tests of the code.
#[cfg(test)]
mod packets;
pub mod piles;
pub mod results;
#[cfg(test)]
mod tests;
