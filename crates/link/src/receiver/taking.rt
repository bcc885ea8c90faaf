// Taking a burst in: it is stored, counted, and the block that it ends is decided.
ghost use Rattle.std.specs.Prelude.{◌≡◌, ◌+◌, ◌-◌, ◌<◌, ◌≤◌, Bool, List, ◌++◌, map, reverse, length, take, drop};
ghost use Rattle.trellis.specs.Bits.{bit_of};
ghost use Rattle.link.specs.Calls.{Decides, Counts, SameLoans, lent, right};
ghost use Rattle.link.specs.Due.{in_ring};
ghost use Rattle.link.specs.Rules.{Suffices, steps};

use super::Receiver;
use crate::checks::MOST_BURSTS;
use crate::due::Due;
use crate::format::Format;
use crate::memory::Memory;
use crate::refusal::Refusal;
use crate::report::{Answer, Report};
use crate::ring::Ring;
use cost::kind::Cost;
use line::laying::Line;
use trellis::parity::remainder_of;

impl<L: Line> Format<L> {
    // Whether the parity of the path at the front of the record is right.
    fn parity_holds(&self, paths: &[u8]) -> bool
        requires { steps self.now ≤ length paths.now }
        ensures { (path : List Bool) → length path ≡ steps self.now → take (steps self.now) paths.now ≡ map bit_of (reverse path) → result ≡ right self.now path }
    {
        let protected = self.message + self.parity;
        self.parity == 0 || remainder_of(&paths[0..protected]) == 0
    }

    // The message is the first of the bits at the front of the record.
    fn write_message(&self, paths: &[u8], block: &mut [u8])
        requires paths { self.now.message ≤ length paths.now }
        requires block { self.now.message ≤ length block.old }
        ensures { block.new ≡ take self.now.message paths.now ++ drop self.now.message block.old }
    {
        block[..self.message].copy_from_slice(&paths[..self.message]);
    }
}

impl<C: Cost, L: Line> Receiver<C, L> {
    // Block `number` by the trellis rule; its message is written only where its parity is right. The ring is read only: it comes
    // as a `&mut`, since the check does not cover a `&` to one part of a memory beside a `&mut` to another.
    fn decide(
        &self,
        number: usize,
        ring: &mut [C::Sample],
        costs: &mut [Option<C::Plain>],
        paths: &mut [u8],
        block: &mut [u8],
    ) -> Result<Answer<C>, Refusal<Report<C>>>
        requires number { number ≤ MOST_BURSTS }
        requires memory { Suffices self.now.format (length costs.old) (length paths.old) (length block.old) }
        ensures decided { Decides C.Cost L.Line self.now.format (in_ring C.Cost self.now.format ring.old number) number block.old result block.new }
        ensures ring { ring.new ≡ ring.old }
    {
        let ring = Ring::new(ring, &self.format);
        let due = Due::<'_, '_, '_, C, L> {
            ring: &ring,
            block: number,
        };
        let report = due.best(costs, paths);
        if !self.format.parity_holds(paths) {
            return Err(Refusal::WrongParity(report));
        }
        self.format.write_message(paths, block);
        Ok(Answer::Block(report))
    }

    // Counts the burst that was stored, and decides the block that it ends.
    pub(super) fn count(&mut self, memory: &mut Memory<C>) -> Result<Answer<C>, Refusal<Report<C>>>
        requires memory { Suffices self.old.format (length memory.old.costs.now) (length memory.old.paths.now) (length memory.old.block.now) }
        requires room { self.old.counted < MOST_BURSTS }
        ensures counted { Counts C.Cost L.Line self.old (lent memory.old) result self.new (lent memory.new) }
        ensures ring { memory.new.ring.now ≡ memory.old.ring.now }
        ensures loans { SameLoans memory.old memory.new }
    {
        let burst = self.counted;
        self.counted = burst + 1;
        if burst + 1 < self.format.depth {
            return Ok(Answer::Waiting { burst });
        }
        let number = burst + 1 - self.format.depth;
        let Memory {
            ring,
            costs,
            paths,
            block,
        } = memory;
        self.decide(number, ring, costs, paths, block)
    }
}
