// A receiver: the format it was opened with, and how many bursts it has counted.
use crate::format::Format;
use cost::kind::Cost;
use line::laying::Line;
use std::marker::PhantomData;

mod calls;
mod checks;
mod taking;

#[derive(Drop)]
pub struct Receiver<C: Cost, L: Line> {
    format: Format<L>,
    counted: usize,
    kind: PhantomData<C>,
}
