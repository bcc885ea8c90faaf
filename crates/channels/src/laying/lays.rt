// The laying of a channel is a line: what it holds answers for it.
ghost use Rattle.channels.specs.Layings.{laid_coded, laid_sent, laid_suited, laid_place};
ghost use Rattle.channels.specs.LayingsLemmas as lemmas;

use super::Laying;
use line::laying::Line;

impl Line for Laying {
    ghost coded = { laid_coded };

    ghost sent = { laid_sent };

    ghost suited = { laid_suited };

    ghost place = { laid_place };

    ghost within = { lemmas.within };

    ghost apart = { lemmas.apart };

    ghost filled = { lemmas.filled };

    ghost ended = { lemmas.ended };

    // Each method asks the line that is held, which has a type of its own.
    fn coded_bits(&self) -> usize {
        match self {
            Laying::Whole(line) => line.coded_bits(),
            Laying::Scrambled(line) => line.coded_bits(),
            Laying::Punctured(line) => line.coded_bits(),
        }
    }

    fn burst_bits(&self) -> usize {
        match self {
            Laying::Whole(line) => line.burst_bits(),
            Laying::Scrambled(line) => line.burst_bits(),
            Laying::Punctured(line) => line.burst_bits(),
        }
    }

    fn suits(&self) -> bool {
        match self {
            Laying::Whole(line) => line.suits(),
            Laying::Scrambled(line) => line.suits(),
            Laying::Punctured(line) => line.suits(),
        }
    }

    fn place_of(&self, j: usize) -> Option<(usize, bool)> {
        match self {
            Laying::Whole(line) => line.place_of(j),
            Laying::Scrambled(line) => line.place_of(j),
            Laying::Punctured(line) => line.place_of(j),
        }
    }
}
