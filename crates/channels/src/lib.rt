// The channels that a receiver or a sender can be opened for.
#![tactic(auto)]

pub mod bcch;
pub mod bench;
pub mod byte;
pub mod channel;
pub mod data24;
pub mod data96;
pub mod examples;
pub mod laying;
