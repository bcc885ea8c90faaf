// What happens to the bursts on their way.
use crate::voiced::Voiced;
use std::fmt;

#[derive(Clone, Copy)]
pub(crate) enum Condition {
    Clean,
    Noise,
    Erasures,
    Lost,
}

pub(crate) const CONDITIONS: [Condition; 4] = [
    Condition::Clean,
    Condition::Noise,
    Condition::Erasures,
    Condition::Lost,
];

// Every so many places a bit is turned over, or not heard.
const NOISE: usize = 37;

const ERASURES: usize = 6;

// The burst that never comes.
const LOST: usize = 5;

// Where place k of burst n stands in the patterns, which move by 7 places a burst.
fn step(n: usize, k: usize) -> usize {
    k.saturating_add(n.saturating_mul(7))
}

// How strongly a bit is heard in noise, from 1 to 127.
fn strength(step: usize) -> u8 {
    1 + (step % 127) as u8
}

impl fmt::Display for Condition {
    fn fmt<W: fmt::Write>(&self, f: &mut fmt::Formatter<W>) -> fmt::Result {
        f.write_str(match self {
            Condition::Clean => "clean",
            Condition::Noise => "noise",
            Condition::Erasures => "erasures",
            Condition::Lost => "lost",
        })
    }
}

impl Condition {
    pub(crate) fn loses(self, n: usize) -> bool {
        matches!(self, Condition::Lost) && n == LOST
    }

    // How a bit sent at place k of burst n is heard.
    pub(crate) fn heard<C: Voiced>(self, n: usize, k: usize, bit: bool) -> C::Sample {
        let step = step(n, k);
        match self {
            Condition::Noise => C::sample(bit != (step % NOISE == 0), strength(step)),
            Condition::Erasures if step % ERASURES == 0 => C::NOTHING,
            _ => C::clean_sample(bit),
        }
    }
}
