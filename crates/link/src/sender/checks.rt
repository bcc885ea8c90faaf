// The checks of a send, in the order of the refusals' numbers.
ghost use Rattle.std.specs.Prelude.{◌≡◌};
ghost use Rattle.link.specs.Refusals.{refusal};
ghost use Rattle.link.specs.Rules.{all_bits, first, send_rules, sender_needs};

use super::Sender;
use crate::checks::{check_count, check_size, unless};
use crate::memory::SenderSizes;
use crate::refusal::Refusal;
use line::laying::Line;
use std::convert::Infallible;

// In order, so that the first byte that is no bit is named.
fn check_bits(message: &[u8]) -> Result<(), Refusal<Infallible>>
    ensures { refusal result ≡ all_bits 0 message.now }
{
    for (place, byte) in message.iter().enumerate() {
        if *byte > 1 {
            return Err(Refusal::BadBit { place });
        }
    }
    Ok(())
}

impl<L: Line> Sender<L> {
    // How much memory send is to be lent.
    pub fn needs(&self) -> SenderSizes
        ensures { result ≡ sender_needs self.now.format }
    {
        SenderSizes {
            ring: self.format.ring_cells(),
            burst: self.format.burst,
        }
    }

    // The memory lent, in the order ring, burst, and then the count and the message.
    pub(super) fn check_send(
        &self,
        message: &[u8],
        lent: SenderSizes,
    ) -> Result<(), Refusal<Infallible>>
        ensures { refusal result ≡ first (send_rules self.now.format lent self.now.counted message.now) }
    {
        let needs = self.needs();
        check_size(needs.ring, lent.ring)?;
        check_size(needs.burst, lent.burst)?;
        check_count(self.counted)?;
        unless(message.len() == self.format.message, Refusal::WrongLength)?;
        check_bits(message)
    }
}
