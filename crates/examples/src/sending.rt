// Sending: bursts worked out by hand, calls that are refused, and what a receiver answers to what is sent.
mod by_hand;
mod refusals;
mod trips;
