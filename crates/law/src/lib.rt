#![tactic(auto)]

// What the calls of a gateway answer and leave behind, and what the history of a run says of each port: definitions and proofs, no functions.
// The definitions stand in specs/, from Calls to Laws; the law is proved for every family of packets.
