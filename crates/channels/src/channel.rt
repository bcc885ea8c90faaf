// The channels by name.
ghost use Rattle.channels.specs.Channels.{Openable, Proposes, Tuned, TunedSender};
ghost use Rattle.channels.specs.Layings.{laying_line};
ghost use Rattle.link.specs.Opening.{Opened, SenderOpened};

use crate::laying::Laying;
use crate::{bcch, bench, data24, data96};
use cost::kind::Cost;
use link::proposal::Proposal;
use link::receiver::Receiver;
use link::sender::Sender;

#[derive(Clone, Copy, Debug, PartialEq, Eq)]
pub enum Channel {
    Bench,
    Bcch,
    Data24,
    Data96,
}

impl Channel {
    // What either end of the channel is opened with.
    pub fn proposal(self) -> Proposal<Laying>
        ensures { Proposes self result }
    {
        match self {
            Channel::Bench => bench::proposal(),
            Channel::Bcch => bcch::proposal(),
            Channel::Data24 => data24::proposal(),
            Channel::Data96 => data96::proposal(),
        }
    }

    // A receiver for the channel, which always opens.
    pub fn open<C: Cost>(self) -> Receiver<C, Laying>
        ensures { Tuned C.Cost self result }
    {
        open(self.proposal())
    }

    // A sender for the channel, which always opens too.
    pub fn open_sender(self) -> Sender<Laying>
        ensures { TunedSender self result }
    {
        open_sender(self.proposal())
    }
}

// A receiver of what breaks no rule of opening.
fn open<C: Cost>(proposal: Proposal<Laying>) -> Receiver<C, Laying>
    requires { Openable proposal }
    ensures { Opened C.Cost laying_line proposal result }
{
    match Receiver::<C, Laying>::open(proposal) {
        Ok(receiver) => receiver,
        // No `expect`: the check has to see that no rule is broken.
        Err(_) => unreachable(),
    }
}

// A sender of the same.
fn open_sender(proposal: Proposal<Laying>) -> Sender<Laying>
    requires { Openable proposal }
    ensures { SenderOpened laying_line proposal result }
{
    match Sender::<Laying>::open(proposal) {
        Ok(sender) => sender,
        Err(_) => unreachable(),
    }
}
