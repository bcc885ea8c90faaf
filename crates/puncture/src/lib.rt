// Puncturing: a line that leaves coded bits out by masks.
#![tactic(auto)]

pub mod mask;
