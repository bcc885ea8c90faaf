// A table of at most 60 entries, read column by column into the bits of a number, the first entry lowest.
ghost use Rattle.std.specs.Prelude.{◌^◌, ◌<◌, ◌≤◌};

mod packing;
mod reading;

// Packed bits: the kept entries before one are counted in the word, in constant time and with no heap.
#[derive(Clone, Copy)]
pub struct Strip {
    pub(super) length: usize,
    bits: u64,
    ghost few: { length ≤ 60 },
    ghost whole: { bits < 2 ^ length },
}
