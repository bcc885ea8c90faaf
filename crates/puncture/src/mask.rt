// The puncturing mask: a prefix, a middle a number of times, what is left over and kept whole, a suffix.
ghost use Rattle.std.specs.Prelude.{◌+◌, ◌*◌, ◌^◌, ◌<◌};

use self::strip::Strip;

pub mod laid;
mod made;
mod strip;
pub mod tables;

// A fault in the tables makes a mask that keeps every bit.
#[derive(Clone, Copy)]
pub enum Mask {
    Sound(Packed),
    Faulty { coded: usize },
}

// The tables of a sound mask, and how many coded bits they leave over.
#[derive(Clone, Copy)]
pub struct Packed {
    prefix: Strip,
    middle: Strip,
    times: usize,
    left: usize,
    suffix: Strip,
    ghost small: { prefix.length + times * middle.length + left + suffix.length < 2 ^ 64 },
}
