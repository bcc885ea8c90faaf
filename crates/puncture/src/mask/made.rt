// How a mask is made of its tables.
ghost use Rattle.std.specs.Prelude.{◌≡◌, true};
ghost use Rattle.puncture.specs.MaskLine.{Lays};
ghost use Rattle.puncture.specs.Masks.{lent_masks, sound, pattern};
ghost use Rattle.puncture.specs.Strips.{pattern_of};
ghost use Rattle.puncture.specs.declared.mask.Mask.TheVariants.{Sound};

use super::strip::Strip;
use super::tables::Tables;
use super::{Mask, Packed};

impl Mask {
    // A fault in the tables makes a mask that does not suit and keeps every bit.
    pub fn new(tables: &Tables) -> Mask
        ensures { Lays (lent_masks tables.now) result }
    {
        if tables.are_sound() {
            Mask::Sound(Packed::of(tables))
        } else {
            let coded = tables.middle.len().saturating_mul(tables.steps);
            Mask::Faulty { coded }
        }
    }
}

impl Packed {
    fn of(tables: &Tables) -> Packed
        requires { sound (lent_masks tables.now) ≡ true }
        ensures { pattern_of (Sound result) ≡ pattern (lent_masks tables.now) }
    {
        Packed {
            prefix: Strip::packed_end(tables.prefix),
            middle: Strip::packed(tables.middle),
            times: tables.times,
            left: tables.middle.len() * (tables.steps - tables.covered()),
            suffix: Strip::packed_end(tables.suffix),
        }
    }
}
