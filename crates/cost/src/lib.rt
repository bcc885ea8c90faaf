// Path costs: how badly a run of bits fits the samples heard.
#![tactic(auto)]

pub mod count;
pub mod float;
pub mod kind;
pub mod ranked;
