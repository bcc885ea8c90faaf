// What a receiver answers.
use cost::kind::Cost;

#[derive(Clone, Copy, Debug, PartialEq, Eq)]
pub struct Report<C: Cost> {
    pub block: usize,
    pub cost: C,
    pub heard: usize,
}

#[derive(Clone, Copy, Debug, PartialEq, Eq)]
pub enum Answer<C: Cost> {
    Waiting { burst: usize },
    Block(Report<C>),
}
