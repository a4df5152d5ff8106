// The eight ports of a gateway: each is opened for kinds of messages, queues those that come, and counts those that it misses.
// The bank of ports is the sink of a reader; its calls are those of the law, answer by answer.
#![tactic(auto)]

pub mod bank;
mod kinds;
mod port;
mod queue;
pub mod refusal;
#[cfg(test)]
mod tests;
