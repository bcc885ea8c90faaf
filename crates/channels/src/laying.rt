// How the channels lay a block: one type for all of them, itself a line.
ghost use Rattle.channels.specs.Layings.{Punctures};
ghost use Rattle.puncture.specs.Masks.{lent_masks};

use line::interleaver::Interleaved;
use line::scrambler::Scrambled;
use line::unpunctured::Unpunctured;
use puncture::mask::Mask;
use puncture::mask::tables::Tables;

pub mod lays;

#[derive(Clone, Copy)]
pub enum Laying {
    // Every bit kept, interleaved.
    Whole(Interleaved<Unpunctured>),
    // Every bit kept, interleaved and scrambled.
    Scrambled(Scrambled<Interleaved<Unpunctured>>),
    // Punctured, interleaved and scrambled.
    Punctured(Scrambled<Interleaved<Mask>>),
}

impl Laying {
    pub(crate) fn punctured(tables: &Tables) -> Laying
        ensures { Punctures (lent_masks tables.now) result }
    {
        Laying::Punctured(Scrambled(Interleaved(Mask::new(tables))))
    }
}
