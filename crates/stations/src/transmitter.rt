// A sender with the memory that its sends are lent.
ghost use Rattle.std.specs.Prelude.{◌≡◌, IfOk};
ghost use Rattle.stations.specs.Transmitters.{FreshSender, SendsHere};

use channels::channel::Channel;
use channels::laying::Laying;
use link::refusal::Refusal;
use link::sender::Sender;
use std::alloc::{AllocError, Global};
use std::convert::Infallible;

#[derive(Drop)]
pub struct Transmitter {
    sender: Sender<Laying>,
    ring: Vec<u8>,
    burst: Vec<u8>,
}

impl Transmitter {
    pub fn open(heap: Global, channel: Channel) -> Result<Transmitter, AllocError>
        ensures { IfOk result (λ t. FreshSender channel t) }
    {
        let sender = channel.open_sender();
        let needs = sender.needs();
        Ok(Transmitter {
            sender,
            ring: vec![in heap; 0; needs.ring]?,
            burst: vec![in heap; 0; needs.burst]?,
        })
    }

    // Each slice is named before it is lent, as a station does.
    pub fn send(&mut self, message: &[u8]) -> Result<usize, Refusal<Infallible>>
        ensures { SendsHere message.now self.old result self.new }
    {
        let Transmitter {
            sender,
            ring,
            burst,
        } = self;
        let ring: &mut [u8] = ring;
        let burst: &mut [u8] = burst;
        sender.send(message, ring, burst)
    }

    // The burst memory, which is as long as a burst.
    pub fn burst(&self) -> &[u8]
        ensures { result.now ≡ self.now.burst.items }
    {
        &self.burst
    }
}
