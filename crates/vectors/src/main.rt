// Holds the sender's bursts against those of an outside encoder, and decodes the outside ones on each channel, by each kind of cost and under
// each condition; prints how many were sent alike, and a line for each answer.
#![tactic(auto)]

mod condition;
mod decoding;
mod hearing;
mod sending;
mod trial;
mod vector;
mod voiced;

use cost::count::Count;
use cost::float::Float;
use cost::ranked::Ranked;
use decoding::decode;
use sending::send;
use std::io::Read;
use vector::{CHANNELS, Vector, read_vectors};

fn try_all(rt: &HostRuntime, vectors: &[Vector<'_>]) -> anyhow::Result<()> {
    for (name, channel) in CHANNELS {
        send(rt, name, channel, vectors)?;
        decode::<Count>(rt, name, channel, vectors)?;
        decode::<Ranked>(rt, name, channel, vectors)?;
        decode::<Float>(rt, name, channel, vectors)?;
    }
    Ok(())
}

fn main(rt: HostRuntime) -> anyhow::Result<()> {
    let mut text = String::new(rt.alloc());
    rt.stdin().read_to_string(&mut text)?;
    let vectors = read_vectors(rt.alloc(), text.as_str())?;
    try_all(&rt, &vectors)
}
