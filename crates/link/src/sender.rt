// A sender: the format it was opened with, and how many bursts it has counted.
use crate::format::Format;

mod calls;
mod checks;
mod laying;

#[derive(Drop)]
pub struct Sender<L> {
    format: Format<L>,
    counted: usize,
}
