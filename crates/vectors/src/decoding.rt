// Decoding the bursts of one channel, and printing a line for each answer.
use crate::condition::CONDITIONS;
use crate::hearing::take;
use crate::trial::Trial;
use crate::vector::Vector;
use crate::voiced::Voiced;
use channels::channel::Channel;
use link::refusal::Refusal;
use link::report::{Answer, Report};
use recording::figures::Figured;
use recording::printed::{Bits, Line};
use stations::station::Station;

// Decodes the channel's bursts under each condition.
pub(crate) fn decode<C: Figured + Voiced>(
    rt: &HostRuntime,
    name: &str,
    channel: Channel,
    vectors: &[Vector<'_>],
) -> anyhow::Result<()> {
    for condition in CONDITIONS {
        let trial = Trial {
            channel: name,
            kind: C::NAME,
            condition,
        };
        decode_under::<C>(rt, trial, channel, vectors)?;
    }
    Ok(())
}

fn decode_under<C: Figured + Voiced>(
    rt: &HostRuntime,
    trial: Trial<'_>,
    channel: Channel,
    vectors: &[Vector<'_>],
) -> anyhow::Result<()> {
    let mut station = Station::<C>::open(rt.alloc(), channel)?;
    let sent = vectors.iter().filter(|vector| vector.channel == channel);
    for (n, vector) in sent.enumerate() {
        let reply = take::<C>(rt.alloc(), &mut station, trial.condition, n, vector.burst)?;
        print_reply(rt, &trial, reply, station.message())?;
    }
    Ok(())
}

fn print_reply<C: Figured>(
    rt: &HostRuntime,
    trial: &Trial<'_>,
    reply: Result<Answer<C>, Refusal<Report<C>>>,
    message: &[u8],
) -> anyhow::Result<()> {
    let line = Line::Answered(reply, Bits(message));
    println!(rt; "{trial} {line}")?;
    Ok(())
}
