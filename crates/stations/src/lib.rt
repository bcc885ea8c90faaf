// Receivers and senders with memory of their own, for programs that have a heap.
#![tactic(auto)]

pub mod station;
pub mod transmitter;
