// The calls of a sender. Memory is lent at each send; a refusal has written nothing.
ghost use Rattle.link.specs.Opening.{SenderOpens};
ghost use Rattle.link.specs.Sending.{Sends};

use super::Sender;
use crate::format::Format;
use crate::memory::SenderSizes;
use crate::proposal::Proposal;
use crate::refusal::Refusal;
use line::laying::Line;
use std::convert::Infallible;

impl<L: Line> Sender<L> {
    // Opens a sender for blocks of this format, by the rules of a receiver. Of what it opens every history is sound: each burst put
    // carries the bits of the blocks that its places are due to, coded and laid as the format says.
    pub fn open(proposal: Proposal<L>) -> Result<Sender<L>, Refusal<Infallible>>
        ensures { SenderOpens L.Line proposal result }
    {
        let format = Format::<L>::agree::<Infallible>(proposal)?;
        Ok(Sender { format, counted: 0 })
    }

    // Keeps the message's block in the ring, puts the next burst at the front of the burst memory, and answers the burst's number.
    pub fn send(
        &mut self,
        message: &[u8],
        ring: &mut [u8],
        burst: &mut [u8],
    ) -> Result<usize, Refusal<Infallible>>
        ensures { Sends L.Line message.now self.old (record { ring = ring.old; burst = burst.old }) result self.new (record { ring = ring.new; burst = burst.new }) }
    {
        let lent = SenderSizes {
            ring: ring.len(),
            burst: burst.len(),
        };
        self.check_send(message, lent)?;
        let number = self.counted;
        self.format.keep(number, message, ring);
        self.format.put(number, ring, burst);
        self.counted = number + 1;
        Ok(number)
    }
}
