// What an opening is handed: `depth` bursts carry a block of message and parity bits, which the code makes longer and the line lays.
use trellis::code::Code;

#[derive(Clone, Copy)]
pub struct Proposal<L> {
    pub code: Code,
    pub message: usize,
    pub parity: usize,
    pub depth: usize,
    pub line: L,
}
