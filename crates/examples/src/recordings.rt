// Recordings, and the lines that playing them makes.
use recording::play::play;
use std::alloc::{AllocError, Global};
use std::process::Abort;
use std::test::*;

mod blocks;
mod faults;
mod floats;
mod marks;
mod refusals;
mod spelt;

// A recording, and the lines that are expected of it.
fn prints(rt: &impl Abort, alloc: Global, bytes: &[u8], lines: &str) -> Result<(), Fail> {
    let played = play(alloc, bytes)?;
    assert_eq!(rt; played.as_str(), lines);
    Ok(())
}

// The same where so many bytes of samples follow, each of them 2.
fn long_burst(
    rt: &impl Abort,
    alloc: Global,
    header: &[u8],
    more: usize,
    lines: &str,
) -> Result<(), Fail> {
    let mut bytes = header.to_vec(alloc)?;
    bytes.resize(header.len().saturating_add(more), 2)?;
    prints(rt, alloc, &bytes, lines)
}

// Recordings, each beside its lines.
fn each_prints(rt: &impl Abort, alloc: Global, cases: &[(&[u8], &str)]) -> Result<(), Fail> {
    for (bytes, lines) in cases {
        prints(rt, alloc, bytes, lines)?;
    }
    Ok(())
}

// A part of a recording: bytes as they stand, or a record that hears a burst, given as figures, by the clean samples of a kind.
#[derive(Clone, Copy)]
enum Part<'a> {
    Bytes(&'a [u8]),
    Count(&'a str),
    Ranked(&'a str),
    Float(&'a str),
    // With another sample at one place, a float by its bits.
    CountBut(&'a str, usize, u8),
    RankedBut(&'a str, usize, u8),
    FloatBut(&'a str, usize, u32),
}

// The bytes of the bits 0 and 1 heard clean.
const COUNT: [&[u8]; 2] = [b"\x00", b"\x01"];

const RANKED: [&[u8]; 2] = [b"\x7F", b"\x81"];

const FLOAT: [&[u8]; 2] = [b"\x3F\x80\x00\x00", b"\xBF\x80\x00\x00"];

// What the parts and the texts together spell.
fn plays(rt: &impl Abort, alloc: Global, parts: &[Part<'_>], texts: &[&str]) -> Result<(), Fail> {
    let bytes = recorded(alloc, parts)?;
    let lines = joined(alloc, texts)?;
    prints(rt, alloc, &bytes, lines.as_str())
}

fn recorded(heap: Global, parts: &[Part<'_>]) -> Result<Vec<u8>, AllocError> {
    let mut bytes = Vec::new(heap);
    for part in parts {
        put(&mut bytes, *part)?;
    }
    Ok(bytes)
}

fn joined(heap: Global, texts: &[&str]) -> Result<String, AllocError> {
    let mut lines = String::new(heap);
    for text in texts {
        lines.push_str(text)?;
    }
    Ok(lines)
}

fn put(bytes: &mut Vec<u8>, part: Part<'_>) -> Result<(), AllocError> {
    match part {
        Part::Bytes(more) => bytes.extend_from_slice(more),
        Part::Count(burst) => put_burst(bytes, COUNT, burst, None),
        Part::Ranked(burst) => put_burst(bytes, RANKED, burst, None),
        Part::Float(burst) => put_burst(bytes, FLOAT, burst, None),
        Part::CountBut(burst, k, sample) => put_burst(bytes, COUNT, burst, Some((k, &[sample]))),
        Part::RankedBut(burst, k, sample) => put_burst(bytes, RANKED, burst, Some((k, &[sample]))),
        Part::FloatBut(burst, k, sample) => put_burst(
            bytes,
            FLOAT,
            burst,
            Some((k, &sample.to_be_bytes())),
        ),
    }
}

fn put_burst(
    bytes: &mut Vec<u8>,
    clean: [&[u8]; 2],
    burst: &str,
    other: Option<(usize, &[u8])>,
) -> Result<(), AllocError> {
    let figures = burst.as_bytes();
    bytes.extend_from_slice(b"HE")?;
    let count = u16::try_from(figures.len()).unwrap_or(u16::MAX);
    bytes.extend_from_slice(&count.to_be_bytes())?;
    for (k, figure) in figures.iter().enumerate() {
        match other {
            Some((place, sample)) if place == k => bytes.extend_from_slice(sample)?,
            _ if *figure == b'1' => bytes.extend_from_slice(clean[1])?,
            _ => bytes.extend_from_slice(clean[0])?,
        }
    }
    Ok(())
}
