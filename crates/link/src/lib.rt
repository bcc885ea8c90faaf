// Both ends of a link: the block format, the receiver and the sender with their calls.
#![tactic(auto)]

mod checks;
mod due;
pub mod format;
pub mod memory;
pub mod proposal;
pub mod receiver;
pub mod refusal;
pub mod report;
mod ring;
pub mod sender;
