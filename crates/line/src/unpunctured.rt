// The line that sends every coded bit, in coded order and unturned.
ghost use Rattle.line.specs.Lines.{unpunctured_line};
ghost use Rattle.line.specs.LinesLemmas.{unpunctured_laws};

use crate::laying::Line;

#[derive(Clone, Copy)]
pub struct Unpunctured {
    pub bits: usize,
}

impl Line for Unpunctured {
    ghost coded = { unpunctured_line.coded };

    ghost sent = { unpunctured_line.sent };

    ghost suited = { unpunctured_line.suited };

    ghost place = { unpunctured_line.place };

    ghost within = { unpunctured_laws.within };

    ghost apart = { unpunctured_laws.apart };

    ghost filled = { unpunctured_laws.filled };

    ghost ended = { unpunctured_laws.ended };

    fn coded_bits(&self) -> usize {
        self.bits
    }

    fn burst_bits(&self) -> usize {
        self.bits
    }

    fn suits(&self) -> bool {
        true
    }

    fn place_of(&self, j: usize) -> Option<(usize, bool)> {
        (j < self.bits).then_some((j, false))
    }
}
