// Sending the messages of one channel, and holding each burst against the outside encoder's.
use crate::vector::Vector;
use anyhow::bail;
use channels::channel::Channel;
use stations::transmitter::Transmitter;
use std::alloc::{AllocError, Global};

// Prints a line for each burst that is another than the outside one, and how many are the same.
pub(crate) fn send(
    rt: &HostRuntime,
    name: &str,
    channel: Channel,
    vectors: &[Vector<'_>],
) -> anyhow::Result<()> {
    let mut transmitter = Transmitter::open(rt.alloc(), channel)?;
    let mut all = 0usize;
    let mut alike = 0usize;
    let outside = vectors.iter().filter(|vector| vector.channel == channel);
    for (n, vector) in outside.enumerate() {
        let message = bits(rt.alloc(), vector.message)?;
        if let Err(refusal) = transmitter.send(&message) {
            bail!("{name} message {n}: refusal {}", refusal.number());
        }
        all = all.saturating_add(1);
        match difference(transmitter.burst(), vector.burst) {
            Some(place) => println!(rt; "{name} sent burst {n} otherwise, first at place {place}")?,
            None => alike = alike.saturating_add(1),
        }
    }
    println!(rt; "{name} sent {alike} of {all} bursts as the outside encoder")?;
    Ok(())
}

// The bits of a message given as figures, one to a byte.
fn bits(heap: Global, figures: &[u8]) -> Result<Vec<u8>, AllocError> {
    figures
        .iter()
        .map(|figure| u8::from(*figure == b'1'))
        .collect(heap)
}

// The first place at which a burst is not the one given as figures; where it is shorter or longer, the first place that one of them lacks.
fn difference(burst: &[u8], figures: &[u8]) -> Option<usize> {
    let place = burst
        .iter()
        .zip(figures)
        .position(|(bit, figure)| (*bit == 1) != (*figure == b'1'));
    match place {
        None if burst.len() != figures.len() => Some(burst.len().min(figures.len())),
        found => found,
    }
}
