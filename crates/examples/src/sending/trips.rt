// From end to end: messages sent on a channel, and what its receiver answers to their bursts.
use crate::bursts::{
    BCCH_0, BCCH_1, DATA24_0, DATA24_1, DATA24_2, DATA24_3, DATA96_0, DATA96_1, DATA96_2,
};
use channels::channel::Channel;
use cost::count::Count;
use cost::float::Float;
use cost::kind::Cost;
use cost::ranked::Ranked;
use link::refusal::Refusal;
use link::report::{Answer, Report};
use stations::station::Station;
use stations::transmitter::Transmitter;
use std::alloc::{AllocError, Global};
use std::fmt;
use std::process::Abort;
use std::test::*;

// The bits that figures spell, one to a byte.
fn bits(heap: Global, figures: &str) -> Result<Vec<u8>, AllocError> {
    figures
        .as_bytes()
        .iter()
        .map(|figure| u8::from(*figure == b'1'))
        .collect(heap)
}

type Reply<C> = Result<Answer<C>, Refusal<Report<C>>>;

// What is told of a block at no cost.
fn told<C: Cost>(block: usize, heard: usize) -> Reply<C> {
    Ok(Answer::Block(Report {
        block,
        cost: C::ZERO,
        heard,
    }))
}

// Both ends of a channel.
#[derive(Drop)]
struct Ends<C: Cost> {
    heap: Global,
    transmitter: Transmitter,
    station: Station<C>,
}

impl<C: Cost> Ends<C> {
    fn open(heap: Global, channel: Channel) -> Result<Ends<C>, AllocError> {
        Ok(Ends {
            heap,
            transmitter: Transmitter::open(heap, channel)?,
            station: Station::<C>::open(heap, channel)?,
        })
    }

    fn send(&mut self, message: &str) -> Result<(), Fail> {
        let message = bits(self.heap, message)?;
        self.transmitter.send(&message)?;
        Ok(())
    }

    // Sends a message, and has its burst heard clean.
    fn carry(&mut self, message: &str) -> Result<Reply<C>, Fail> {
        self.send(message)?;
        let burst = self.transmitter.burst().iter();
        let heard: Vec<C::Sample> = burst
            .map(|bit| C::clean_sample(*bit == 1))
            .collect(self.heap)?;
        Ok(self.station.hear(&heard))
    }

    // Sends a message, the burst of which never comes.
    fn lose(&mut self, message: &str) -> Result<Reply<C>, Fail> {
        self.send(message)?;
        Ok(self.station.miss())
    }

    // Whether the message told last is this one.
    fn holds(&self, message: &str) -> bool {
        let told = self.station.message();
        let figures = message.as_bytes();
        told.len() == figures.len()
            && told
                .iter()
                .zip(figures)
                .all(|(bit, figure)| (*bit == 1) == (*figure == b'1'))
    }
}

// Every message is told once the last of its bursts has come, at no cost and with every place heard.
fn trip<C: Cost + fmt::Debug + PartialEq>(
    rt: &impl Abort,
    heap: Global,
    channel: Channel,
    messages: &[&str],
) -> Result<(), Fail> {
    let mut ends = Ends::<C>::open(heap, channel)?;
    let waits = channel.proposal().depth.saturating_sub(1);
    for (n, message) in messages.iter().enumerate() {
        let reply = ends.carry(message)?;
        if n < waits {
            assert_eq!(rt; reply, Ok(Answer::Waiting { burst: n }));
            continue;
        }
        let block = n.saturating_sub(waits);
        assert_eq!(rt; reply, told(block, ends.transmitter.burst().len()));
        assert_eq!(rt;
            messages.get(block).map(|sent| ends.holds(sent)),
            Some(true)
        );
    }
    Ok(())
}

fn trip_by_each_kind(
    rt: &impl Abort,
    heap: Global,
    channel: Channel,
    messages: &[&str],
) -> Result<(), Fail> {
    trip::<Count>(rt, heap, channel, messages)?;
    trip::<Ranked>(rt, heap, channel, messages)?;
    trip::<Float>(rt, heap, channel, messages)
}

#[test]
fn bench(rt: HostRuntime) -> Result<(), Fail> {
    let messages = ["100000", "101101", "110000", "000000", "111111"];
    trip_by_each_kind(&rt, rt.alloc(), Channel::Bench, &messages)
}

// Of which the parity is right.
#[test]
fn bcch(rt: HostRuntime) -> Result<(), Fail> {
    let messages = [BCCH_0.message, BCCH_1.message];
    trip_by_each_kind(&rt, rt.alloc(), Channel::Bcch, &messages)
}

#[test]
fn data_2_4(rt: HostRuntime) -> Result<(), Fail> {
    let messages = [
        DATA24_0.message,
        DATA24_1.message,
        DATA24_2.message,
        DATA24_3.message,
    ];
    trip_by_each_kind(&rt, rt.alloc(), Channel::Data24, &messages)
}

#[test]
fn data_9_6(rt: HostRuntime) -> Result<(), Fail> {
    let messages = [
        DATA96_0.message,
        DATA96_1.message,
        DATA96_2.message,
        DATA96_0.message,
    ];
    trip_by_each_kind(&rt, rt.alloc(), Channel::Data96, &messages)
}

#[test]
fn stolen_bursts_stand_between(rt: HostRuntime) -> Result<(), Fail> {
    let mut ends = Ends::<Ranked>::open(rt.alloc(), Channel::Data24)?;
    assert_eq!(rt;
        ends.carry(DATA24_0.message)?,
        Ok(Answer::Waiting { burst: 0 })
    );
    assert_eq!(rt; ends.station.stolen(), Ok(1));
    assert_eq!(rt;
        ends.carry(DATA24_1.message)?,
        Ok(Answer::Waiting { burst: 1 })
    );
    assert_eq!(rt; ends.station.stolen(), Ok(2));
    assert_eq!(rt; ends.carry(DATA24_2.message)?, told(0, 648));
    assert!(rt; ends.holds(DATA24_0.message));
    Ok(())
}

// The receiver then tells block 1 as its block 0.
#[test]
fn the_receiver_restarts(rt: HostRuntime) -> Result<(), Fail> {
    let mut ends = Ends::<Count>::open(rt.alloc(), Channel::Data24)?;
    assert_eq!(rt;
        ends.carry(DATA24_0.message)?,
        Ok(Answer::Waiting { burst: 0 })
    );
    ends.station.restart();
    assert_eq!(rt;
        ends.carry(DATA24_1.message)?,
        Ok(Answer::Waiting { burst: 0 })
    );
    assert_eq!(rt;
        ends.carry(DATA24_2.message)?,
        Ok(Answer::Waiting { burst: 1 })
    );
    assert_eq!(rt; ends.carry(DATA24_3.message)?, told(0, 648));
    assert!(rt; ends.holds(DATA24_1.message));
    Ok(())
}

// A third of three blocks is not heard, and the next one whole again.
#[test]
fn a_burst_is_missed(rt: HostRuntime) -> Result<(), Fail> {
    let mut ends = Ends::<Count>::open(rt.alloc(), Channel::Data24)?;
    assert_eq!(rt;
        ends.carry(DATA24_0.message)?,
        Ok(Answer::Waiting { burst: 0 })
    );
    assert_eq!(rt;
        ends.carry(DATA24_1.message)?,
        Ok(Answer::Waiting { burst: 1 })
    );
    assert_eq!(rt; ends.lose(DATA24_2.message)?, told(0, 432));
    assert!(rt; ends.holds(DATA24_0.message));
    assert_eq!(rt; ends.carry(DATA24_3.message)?, told(1, 432));
    assert!(rt; ends.holds(DATA24_1.message));
    assert_eq!(rt; ends.carry(DATA24_0.message)?, told(2, 432));
    assert!(rt; ends.holds(DATA24_2.message));
    assert_eq!(rt; ends.carry(DATA24_1.message)?, told(3, 648));
    assert!(rt; ends.holds(DATA24_3.message));
    Ok(())
}
