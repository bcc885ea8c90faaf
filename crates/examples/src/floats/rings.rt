// Rings in which a program leaves samples that are unfit: each is read as nothing, and not counted as heard.
use super::{Reply, told};
use channels::bench::CODE;
use cost::float::Float;
use line::unpunctured::Unpunctured;
use link::memory::Memory;
use link::proposal::Proposal;
use link::receiver::Receiver;
use link::refusal::Refusal;
use link::report::{Answer, Report};
use std::num::f32_from_bits_with_nan;
use std::process::Abort;
use std::test::*;

type Small = Receiver<Float, Unpunctured>;

// The bench's code over three bursts, a coded bit at the place of its own number.
fn open_small() -> Result<Small, Refusal<Report<Float>>> {
    Small::open(Proposal {
        code: CODE,
        message: 6,
        parity: 0,
        depth: 3,
        line: Unpunctured { bits: 16 },
    })
}

// The coded bits of 100000, which each burst carries where every message is that one.
const BURST: [f32; 16] = [
    -50.0, -50.0, -50.0, 50.0, -50.0, -50.0, 50.0, 50.0, 50.0, 50.0, 50.0, 50.0, 50.0, 50.0, 50.0,
    50.0,
];

// What a burst is answered, and the block memory after it.
fn hear(receiver: &mut Small, burst: &[f32], ring: &mut [f32]) -> (Reply, [u8; 6]) {
    let mut block = [9; 6];
    let mut memory = Memory {
        ring,
        costs: &mut [None; 8],
        paths: &mut [0; 32],
        block: &mut block,
    };
    let reply = receiver.hear(burst, &mut memory);
    (reply, block)
}

// 1001, the infinities and NaN.
const UNFIT: [u32; 4] = [0x447A_4000, 0x7F80_0000, 0xFF80_0000, 0x7FC0_0000];

fn unfit_ring() -> [f32; 48] {
    let mut ring = [0.0; 48];
    for (cell, bits) in ring.iter_mut().zip(UNFIT.iter().cycle()) {
        *cell = f32_from_bits_with_nan(*bits);
    }
    ring
}

// A receiver that has heard two bursts.
fn waiting(rt: &impl Abort, ring: &mut [f32]) -> Result<Small, Fail> {
    let mut receiver = open_small()?;
    for burst in 0..2 {
        let (reply, _) = hear(&mut receiver, &BURST, ring);
        assert_eq!(rt; reply, Ok(Answer::Waiting { burst }));
    }
    Ok(receiver)
}

#[test]
fn what_a_ring_held_at_first_is_not_met(rt: HostRuntime) -> Result<(), Fail> {
    let mut ring = unfit_ring();
    let mut receiver = waiting(&rt, &mut ring)?;
    let (reply, block) = hear(&mut receiver, &BURST, &mut ring);
    assert_eq!(rt; reply, told(0, 0, 16));
    assert_eq!(rt; block, [1, 0, 0, 0, 0, 0]);
    Ok(())
}

// Place k of burst n lies in cell 16 n + k, and block 0 has its place k in burst k mod 3. Two messages differ in five places at least,
// and in one at least beside the five of this test: the others cost 50 or more.
#[test]
fn unfit_samples_put_into_the_ring_are_nothing(rt: HostRuntime) -> Result<(), Fail> {
    let mut ring = unfit_ring();
    let mut receiver = waiting(&rt, &mut ring)?;
    // against the ones at places 0 and 4 and the zero at place 9, and at place 13
    ring[0] = f32_from_bits_with_nan(0x447A_4000);
    ring[20] = f32_from_bits_with_nan(0x7F80_0000);
    ring[9] = f32_from_bits_with_nan(0xFF80_0000);
    ring[29] = f32_from_bits_with_nan(0x7FC0_0000);
    let mut last = BURST;
    last[2] = 10.0;
    let (reply, block) = hear(&mut receiver, &last, &mut ring);
    assert_eq!(rt; reply, told(0, 0x4120_0000, 12));
    assert_eq!(rt; block, [1, 0, 0, 0, 0, 0]);
    Ok(())
}

// Of block 0 there are only places 2, 5, 8, 11 and 14, which 100000 meets.
#[test]
fn unfit_samples_of_another_ring_are_nothing(rt: HostRuntime) -> Result<(), Fail> {
    let mut receiver = waiting(&rt, &mut unfit_ring())?;
    let (reply, _) = hear(&mut receiver, &BURST, &mut unfit_ring());
    assert_eq!(rt; reply, told(0, 0, 5));
    Ok(())
}
