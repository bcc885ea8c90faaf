// The text: a line for each burst, with its channel, the message of that number, and the burst, bits as figures.
use anyhow::anyhow;
use channels::channel::Channel;
use std::alloc::Global;

pub(crate) const CHANNELS: [(&str, Channel); 3] = [
    ("BCCH", Channel::Bcch),
    ("DATA24", Channel::Data24),
    ("DATA96", Channel::Data96),
];

#[derive(Clone, Copy)]
pub(crate) struct Vector<'a> {
    pub(crate) channel: Channel,
    pub(crate) message: &'a [u8],
    pub(crate) burst: &'a [u8],
}

pub(crate) fn read_vectors<'a>(heap: Global, text: &'a str) -> anyhow::Result<Vec<Vector<'a>>> {
    let mut vectors = Vec::new(heap);
    for (before, line) in text.lines().enumerate() {
        let vector = read_line(line).ok_or_else(|| bad_line(before.saturating_add(1)))?;
        vectors.push(vector)?;
    }
    Ok(vectors)
}

fn bad_line(number: usize) -> anyhow::Error {
    anyhow!("line {number} is not a channel, a message and a burst")
}

fn read_line<'a>(line: &'a str) -> Option<Vector<'a>> {
    let mut words = line.split_whitespace();
    let channel = channel_named(words.next()?)?;
    let message = figures(words.next()?)?;
    let burst = figures(words.next()?)?;
    match words.next() {
        None => Some(Vector {
            channel,
            message,
            burst,
        }),
        Some(_) => None,
    }
}

fn channel_named(word: &str) -> Option<Channel> {
    CHANNELS
        .iter()
        .find(|(name, _)| *name == word)
        .map(|(_, channel)| *channel)
}

// The word's bytes, where each is a figure 0 or 1.
fn figures<'a>(word: &'a str) -> Option<&'a [u8]> {
    let bits = word.as_bytes();
    bits.iter()
        .all(|bit| matches!(bit, b'0' | b'1'))
        .then_some(bits)
}
