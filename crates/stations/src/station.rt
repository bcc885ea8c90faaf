// A receiver with the memory that its calls are lent.
ghost use Rattle.std.specs.Prelude.{◌≡◌, IfOk, OnOk, length, replicate};
ghost use Rattle.channels.specs.Layings.{laying_line};
ghost use Rattle.link.specs.Calls.{Steals};
ghost use Rattle.stations.specs.Stations.{Equipped, Fresh, HearsHere, MissesHere, RestartsHere};

use channels::channel::Channel;
use channels::laying::Laying;
use cost::kind::Cost;
use link::memory::Memory;
use link::receiver::Receiver;
use link::refusal::Refusal;
use link::report::{Answer, Report};
use std::alloc::{AllocError, Global};

#[derive(Drop)]
pub struct Station<C: Cost> {
    receiver: Receiver<C, Laying>,
    ring: Vec<C::Sample>,
    costs: Vec<Option<C::Plain>>,
    paths: Vec<u8>,
    block: Vec<u8>,
}

impl<C: Cost> Station<C> {
    pub fn open(heap: Global, channel: Channel) -> Result<Station<C>, AllocError>
        ensures { IfOk result (λ s. Fresh C.Cost channel s) }
    {
        Station::with(heap, channel.open::<C>())
    }

    // A station of any receiver, with as much memory as it asks for, all blank.
    pub fn with(heap: Global, receiver: Receiver<C, Laying>) -> Result<Station<C>, AllocError>
        ensures { IfOk result (λ s. Equipped C.Cost receiver s) }
    {
        let mut station = Station {
            receiver,
            ring: Vec::new(heap),
            costs: Vec::new(heap),
            paths: Vec::new(heap),
            block: Vec::new(heap),
        };
        station.blank()?;
        Ok(station)
    }

    // Takes another receiver, and gives it the memory that there is; the heap is asked for what that lacks. Where it is not found, what the
    // memory holds is free, and another receiver may be taken.
    pub fn take(&mut self, receiver: Receiver<C, Laying>) -> Result<(), AllocError>
        ensures { OnOk result (Equipped C.Cost receiver self.new) }
    {
        self.receiver = receiver;
        self.blank()
    }

    // Makes the memory as large as the receiver asks for, all blank.
    fn blank(&mut self) -> Result<(), AllocError>
        ensures { OnOk result (Equipped C.Cost self.old.receiver self.new) }
    {
        let needs = self.receiver.needs();
        refill(&mut self.ring, needs.ring, C::NOTHING)?;
        refill(&mut self.costs, needs.costs, None)?;
        refill(&mut self.paths, needs.paths, 0)?;
        refill(&mut self.block, needs.block, 0)
    }

    // Each slice is named before it is lent, since the check does not follow a Vec into a field. One body for hear and miss, over an
    // `Option` of a burst, meets lifetimes that the check does not cover.
    pub fn hear(&mut self, samples: &[C::Sample]) -> Result<Answer<C>, Refusal<Report<C>>>
        ensures { HearsHere C.Cost samples.now self.old result self.new }
    {
        let Station {
            receiver,
            ring,
            costs,
            paths,
            block,
        } = self;
        let ring: &mut [C::Sample] = ring;
        let costs: &mut [Option<C::Plain>] = costs;
        let paths: &mut [u8] = paths;
        let block: &mut [u8] = block;
        let mut memory = Memory {
            ring,
            costs,
            paths,
            block,
        };
        receiver.hear(samples, &mut memory)
    }

    pub fn miss(&mut self) -> Result<Answer<C>, Refusal<Report<C>>>
        ensures { MissesHere C.Cost self.old result self.new }
    {
        let Station {
            receiver,
            ring,
            costs,
            paths,
            block,
        } = self;
        let ring: &mut [C::Sample] = ring;
        let costs: &mut [Option<C::Plain>] = costs;
        let paths: &mut [u8] = paths;
        let block: &mut [u8] = block;
        let mut memory = Memory {
            ring,
            costs,
            paths,
            block,
        };
        receiver.miss(&mut memory)
    }

    pub fn stolen(&self) -> Result<usize, Refusal<Report<C>>>
        ensures { Steals C.Cost laying_line self.now.receiver result self.now.receiver }
    {
        self.receiver.stolen()
    }

    pub fn restart(&mut self)
        ensures { RestartsHere C.Cost self.old self.new }
    {
        self.receiver.restart();
    }

    // The block memory, which is as long as a message.
    pub fn message(&self) -> &[u8]
        ensures { result.now ≡ self.now.block.items }
    {
        &self.block
    }
}

// So many copies of a value, in place of what there was.
fn refill<T: Copy>(items: &mut Vec<T>, count: usize, value: T) -> Result<(), AllocError>
    ensures { OnOk result (items.new.items ≡ replicate count value) }
{
    items.truncate(count);
    overwrite(items, value);
    items.resize(count, value)
}

// A value in each place. `fill` would ask for a clone that cannot fail, and Copy does not promise one.
fn overwrite<T: Copy>(items: &mut Vec<T>, value: T)
    ensures { items.new.items ≡ replicate (length items.old.items) value }
{
    for item in items.iter_mut() {
        *item = value;
    }
}
