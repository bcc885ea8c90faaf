// The checks of hear and miss, in the order of the refusals' numbers.
ghost use Rattle.std.specs.Prelude.{◌≡◌, ◌*◌, ◌^◌};
ghost use Rattle.link.specs.Refusals.{refusal};
ghost use Rattle.link.specs.Rules.{all_fit, first, hear_rules, memory_rules, miss_rules, needed, steps};

use super::Receiver;
use crate::checks::{check_count, check_size, unless};
use crate::format::Format;
use crate::memory::Sizes;
use crate::refusal::Refusal;
use crate::report::Report;
use cost::kind::Cost;
use line::laying::Line;

impl<L: Line> Format<L> {
    // As many steps as protected bits and closing zeros.
    pub(crate) fn steps(&self) -> usize
        ensures { result ≡ steps self.now }
    {
        self.message + self.parity + self.code.memory
    }

    // As the trellis has it of its own code: a public method of a code could not ask that the code is sound.
    pub(crate) fn registers(&self) -> usize
        ensures { result ≡ 2 ^ self.now.code.memory }
    {
        1 << self.code.memory
    }
}

// In order, with the index, so that the first unfit place is named.
fn check_fit<C: Cost>(samples: &[C::Sample]) -> Result<(), Refusal<Report<C>>>
    ensures { refusal result ≡ all_fit C.Cost 0 samples.now }
{
    for (place, sample) in samples.iter().enumerate() {
        if !C::is_fit(*sample) {
            return Err(Refusal::UnfitSample { place });
        }
    }
    Ok(())
}

impl<C: Cost, L: Line> Receiver<C, L> {
    // How much memory hear and miss are to be lent.
    pub fn needs(&self) -> Sizes
        ensures { result ≡ needed self.now.format }
    {
        let registers = self.format.registers();
        Sizes {
            ring: self.format.ring_cells(),
            costs: 2 * registers,
            paths: self.format.steps() * registers,
            block: self.format.message,
        }
    }

    // The memory lent, in the order ring, costs, path record, block.
    fn check_memory(&self, lent: Sizes) -> Result<(), Refusal<Report<C>>>
        ensures { refusal result ≡ first (memory_rules self.now.format lent) }
    {
        let needs = self.needs();
        check_size(needs.ring, lent.ring)?;
        check_size(needs.costs, lent.costs)?;
        check_size(needs.paths, lent.paths)?;
        check_size(needs.block, lent.block)
    }

    pub(super) fn check_miss(&self, lent: Sizes) -> Result<(), Refusal<Report<C>>>
        ensures { refusal result ≡ first (miss_rules self.now.format lent self.now.counted) }
    {
        self.check_memory(lent)?;
        check_count(self.counted)
    }

    pub(super) fn check_hear(
        &self,
        samples: &[C::Sample],
        lent: Sizes,
    ) -> Result<(), Refusal<Report<C>>>
        ensures { refusal result ≡ first (hear_rules C.Cost self.now.format lent self.now.counted samples.now) }
    {
        self.check_miss(lent)?;
        let given = samples.len();
        unless(given == self.format.burst, Refusal::WrongCount { given })?;
        check_fit::<C>(samples)
    }
}
