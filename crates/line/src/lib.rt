// Lines: how the coded bits of one block lie in the places of a burst.
#![tactic(auto)]

pub mod interleaver;
pub mod laying;
pub mod scrambler;
pub mod unpunctured;
