// The samples due to one block: place k of burst n carries block n - (k mod depth), so block b finds its place k in burst b + (k mod depth).
ghost use Rattle.std.specs.Prelude.{◌≡◌, ◌≤◌, length};
ghost use Rattle.link.specs.Due.{met_on, in_ring, heard_of};
ghost use Rattle.link.specs.Calls.{Finds};
ghost use Rattle.link.specs.declared.checks.TheConstants.{MOST_BURSTS};
ghost use Rattle.link.specs.Rules.{needed};

use crate::report::Report;
use crate::ring::Ring;
use cost::kind::Cost;
use line::laying::Line;
use trellis::decide::decide;
use trellis::received::{Received, weighed};

#[derive(Drop)]
pub(crate) struct Due<'r, 'a, 'f, C: Cost, L: Line> {
    pub(crate) ring: &'r Ring<'a, 'f, C::Sample, L>,
    pub(crate) block: usize,
    // So that the number of a burst is a number of the machine.
    ghost few: { block ≤ MOST_BURSTS },
}

impl<'r, 'a, 'f, C: Cost, L: Line> Due<'r, 'a, 'f, C, L> {
    // The sample due at a burst place; past the burst there is none.
    pub(crate) fn sample(&self, place: usize) -> C::Sample
        ensures { result ≡ in_ring C.Cost self.now.ring.now.format.now self.now.ring.now.cells.now self.now.block place }
    {
        let format = self.ring.format;
        if place >= format.burst {
            return C::NOTHING;
        }
        match self.ring.sample(self.block + place % format.depth, place) {
            Some(sample) => weighed::<C>(sample),
            None => C::NOTHING,
        }
    }

    // How many of the samples due do not mean nothing.
    pub(crate) fn heard(&self) -> usize
        ensures { result ≡ heard_of C.Cost (in_ring C.Cost self.now.ring.now.format.now self.now.ring.now.cells.now self.now.block) self.now.ring.now.format.now.burst }
    {
        (0..self.ring.format.burst)
            .filter(|&place| !C::is_silent(self.sample(place)))
            .count()
    }

    // The block that the trellis rule answers; its bits are left at the front of the path record.
    pub(crate) fn best(&self, costs: &mut [Option<C::Plain>], paths: &mut [u8]) -> Report<C>
        requires costs { (needed self.now.ring.now.format.now).costs ≤ length costs.old }
        requires paths { (needed self.now.ring.now.format.now).paths ≤ length paths.old }
        ensures { Finds C.Cost L.Line self.now.ring.now.format.now (in_ring C.Cost self.now.ring.now.format.now self.now.ring.now.cells.now self.now.block) self.now.block result paths.new }
    {
        let Some(cost) = decide::<C, Due<'r, 'a, 'f, C, L>>(
            &self.ring.format.code,
            self.ring.format.steps(),
            self,
            costs,
            paths,
        ) else {
            // The check has to see that the decoder can run.
            unreachable()
        };
        Report {
            block: self.block,
            cost,
            heard: self.heard(),
        }
    }
}

impl<'r, 'a, 'f, C: Cost, L: Line> Received for Due<'r, 'a, 'f, C, L> {
    type Sample = C::Sample;

    ghost met = { λ d. met_on L.Line d.ring.now.format.now.line (in_ring C.Cost d.ring.now.format.now d.ring.now.cells.now d.block) };

    fn met_at(&self, j: usize) -> Option<(C::Sample, bool)> {
        let (place, turned) = self.ring.format.line.place_of(j)?;
        Some((self.sample(place), turned))
    }
}
