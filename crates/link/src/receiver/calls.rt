// The calls of a receiver. Memory is lent at each hear and miss; a refusal has written nothing.
ghost use Rattle.link.specs.Calls.{Hears, Misses, Steals, Restarts, SameLoans, lent};
ghost use Rattle.link.specs.Opening.{Opens};

use super::Receiver;
use crate::checks::unless;
use crate::format::Format;
use crate::memory::Memory;
use crate::proposal::Proposal;
use crate::refusal::Refusal;
use crate::report::{Answer, Report};
use cost::kind::Cost;
use line::laying::Line;
use std::marker::PhantomData;

impl<C: Cost, L: Line> Receiver<C, L> {
    // Opens a receiver for blocks of this format. Of what it opens every history is sound: each block told is the
    // trellis rule's answer on the bursts counted, and no other run of message and parity bits costs less.
    pub fn open(proposal: Proposal<L>) -> Result<Receiver<C, L>, Refusal<Report<C>>>
        ensures { Opens C.Cost L.Line proposal result }
    {
        let format = Format::<L>::agree::<Report<C>>(proposal)?;
        Ok(Receiver {
            format,
            counted: 0,
            kind: PhantomData,
        })
    }

    // Takes in one burst, a sample for each of its places.
    pub fn hear(
        &mut self,
        samples: &[C::Sample],
        memory: &mut Memory<C>,
    ) -> Result<Answer<C>, Refusal<Report<C>>>
        ensures called { Hears C.Cost L.Line samples.now self.old (lent memory.old) result self.new (lent memory.new) }
        ensures loans { SameLoans memory.old memory.new }
    {
        self.check_hear(samples, memory.sizes())?;
        self.format.store(self.counted, samples, memory.ring);
        self.count(memory)
    }

    // Counts a burst that never came. Beside hear, since the checks and what is stored differ, and the rest is `count`.
    pub fn miss(&mut self, memory: &mut Memory<C>) -> Result<Answer<C>, Refusal<Report<C>>>
        ensures called { Misses C.Cost L.Line self.old (lent memory.old) result self.new (lent memory.new) }
        ensures loans { SameLoans memory.old memory.new }
    {
        self.check_miss(memory.sizes())?;
        self.format
            .store_same(self.counted, C::NOTHING, memory.ring);
        self.count(memory)
    }

    // Notes a burst taken for another channel: it counts nothing, and answers the bursts counted so far.
    pub fn stolen(&self) -> Result<usize, Refusal<Report<C>>>
        ensures { Steals C.Cost L.Line self.now result self.now }
    {
        unless(self.format.depth != 1, Refusal::NotStealable)?;
        Ok(self.counted)
    }

    // Sets the count to 0, and so forgets all blocks.
    pub fn restart(&mut self)
        ensures { Restarts C.Cost L.Line self.old self.new }
    {
        self.counted = 0;
    }
}
