// The interleaver over any line: rows of eight bits are sent column by column.
ghost use Rattle.std.specs.Prelude.{◌≡◌};
ghost use Rattle.line.specs.Interleaver.{moved};
ghost use Rattle.line.specs.Lawful.{laws_of};
ghost use Rattle.line.specs.Lines.{interleaved_line};
ghost use Rattle.line.specs.LinesLemmas.{interleaved_laws};

use crate::laying::Line;

// Of each column of a row, its number in the order of sending: 5 c mod 8.
const COLUMNS: [usize; 8] = [0, 5, 2, 7, 4, 1, 6, 3];

// A burst that is no whole number of rows stays as it is, and does not suit.
#[derive(Clone, Copy)]
pub struct Interleaved<L: Line>(pub L);

impl<L: Line> Line for Interleaved<L> {
    ghost coded = { (interleaved_line L.Line).coded };

    ghost sent = { (interleaved_line L.Line).sent };

    ghost suited = { (interleaved_line L.Line).suited };

    ghost place = { (interleaved_line L.Line).place };

    ghost within = { (interleaved_laws (laws_of L.Line)).within };

    ghost apart = { (interleaved_laws (laws_of L.Line)).apart };

    ghost filled = { (interleaved_laws (laws_of L.Line)).filled };

    ghost ended = { (interleaved_laws (laws_of L.Line)).ended };

    // Handed on by hand, as in every layer: a trait of layers would be longer.
    fn coded_bits(&self) -> usize {
        self.0.coded_bits()
    }

    fn burst_bits(&self) -> usize {
        self.0.burst_bits()
    }

    fn suits(&self) -> bool {
        self.0.suits() && self.0.burst_bits() % 8 == 0
    }

    fn place_of(&self, j: usize) -> Option<(usize, bool)> {
        let (k, turned) = self.0.place_of(j)?;
        Some((moved(self.0.burst_bits(), k), turned))
    }
}

// k div 8 + N * (5 k mod 8), with N rows.
fn moved(bits: usize, k: usize) -> usize
    ensures { result ≡ moved bits k }
{
    if bits % 8 == 0 {
        k / 8 + bits / 8 * COLUMNS[k % 8]
    } else {
        k
    }
}
