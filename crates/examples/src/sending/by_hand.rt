// Bursts worked out by hand: the bench's, and those of a small format of depth 3.
use channels::channel::Channel;
use line::scrambler::Scrambled;
use line::unpunctured::Unpunctured;
use link::memory::SenderSizes;
use link::proposal::Proposal;
use link::refusal::Refusal;
use link::sender::Sender;
use std::convert::Infallible;
use std::test::*;
use trellis::code::Code;

#[test]
fn the_bench_sends_100000(rt: HostRuntime) -> Result<(), Fail> {
    let mut sender = Channel::Bench.open_sender();
    let mut ring = [7; 16];
    let mut burst = [7; 16];
    assert_eq!(rt;
        sender.send(&[1, 0, 0, 0, 0, 0], &mut ring, &mut burst),
        Ok(0)
    );
    assert_eq!(rt; burst, [1, 0, 1, 0, 1, 0, 0, 0, 1, 0, 1, 0, 0, 0, 0, 0]);
    Ok(())
}

#[test]
fn needs_are_those_of_the_channel(rt: HostRuntime) -> Result<(), Fail> {
    for (channel, ring, burst) in [
        (Channel::Bench, 16, 16),
        (Channel::Bcch, 424, 424),
        (Channel::Data24, 1944, 648),
        (Channel::Data96, 1944, 648),
    ] {
        assert_eq!(rt; channel.open_sender().needs(), SenderSizes { ring, burst });
    }
    Ok(())
}

pub(super) type Small = Scrambled<Unpunctured>;

// Seven message bits, one row 1 + D, three bursts of eight bits, of which those at places 3, 6 and 7 are turned over.
pub(super) fn open_small() -> Result<Sender<Small>, Refusal<Infallible>> {
    Sender::<Small>::open(Proposal {
        code: Code {
            rows: 1,
            taps: [0b11, 0, 0, 0, 0],
            memory: 1,
        },
        message: 7,
        parity: 0,
        depth: 3,
        line: Scrambled(Unpunctured { bits: 8 }),
    })
}

// Coded 11010100, 10000001, 00000011 and 11000000.
pub(super) const MESSAGES: [[u8; 7]; 4] = [
    [1, 0, 0, 1, 1, 0, 0],
    [1, 1, 1, 1, 1, 1, 1],
    [0, 0, 0, 0, 0, 0, 1],
    [1, 0, 0, 0, 0, 0, 0],
];

// Places 0, 3 and 6 carry the block sent, 1, 4 and 7 the one before, 2 and 5 the one before that; 0 where there is none.
pub(super) const BURSTS: [[u8; 8]; 4] = [
    [1, 0, 0, 0, 0, 0, 1, 1],
    [1, 1, 0, 1, 0, 0, 1, 1],
    [0, 0, 0, 1, 0, 1, 0, 0],
    [1, 0, 0, 1, 0, 0, 1, 0],
];

#[test]
fn a_block_goes_over_three_bursts(rt: HostRuntime) -> Result<(), Fail> {
    let mut sender = open_small()?;
    // what is left in the ring from elsewhere is not sent
    let mut ring = [7; 24];
    let mut burst = [7; 8];
    for (n, message) in MESSAGES.iter().enumerate() {
        assert_eq!(rt; sender.send(message, &mut ring, &mut burst), Ok(n));
        assert_eq!(rt; Some(burst), BURSTS.get(n).copied());
    }
    Ok(())
}

#[test]
fn only_the_bytes_of_the_block_and_the_burst_are_written(rt: HostRuntime) -> Result<(), Fail> {
    let mut sender = open_small()?;
    let mut ring = [7; 26];
    let mut burst = [7; 10];
    assert_eq!(rt; sender.send(&MESSAGES[0], &mut ring, &mut burst), Ok(0));
    assert_eq!(rt;
        ring,
        [
            1, 1, 0, 1, 0, 1, 0, 0, 7, 7, 7, 7, 7, 7, 7, 7, 7, 7, 7, 7, 7, 7, 7, 7, 7, 7
        ]
    );
    assert_eq!(rt; burst, [1, 0, 0, 0, 0, 0, 1, 1, 7, 7]);
    assert_eq!(rt; sender.send(&MESSAGES[1], &mut ring, &mut burst), Ok(1));
    assert_eq!(rt;
        ring,
        [
            1, 1, 0, 1, 0, 1, 0, 0, 1, 0, 0, 0, 0, 0, 0, 1, 7, 7, 7, 7, 7, 7, 7, 7, 7, 7
        ]
    );
    assert_eq!(rt; burst, [1, 1, 0, 1, 0, 0, 1, 1, 7, 7]);
    Ok(())
}

#[test]
fn bytes_above_1_in_the_ring_are_read_as_1(rt: HostRuntime) -> Result<(), Fail> {
    let mut sender = open_small()?;
    let mut ring = [0; 24];
    let mut burst = [0; 8];
    assert_eq!(rt; sender.send(&MESSAGES[0], &mut ring, &mut burst), Ok(0));
    assert_eq!(rt; sender.send(&MESSAGES[1], &mut ring, &mut burst), Ok(1));
    // a 0 and a 1 of block 0, which burst 2 carries at places 2 and 5
    ring[2] = 255;
    ring[5] = 2;
    assert_eq!(rt; sender.send(&MESSAGES[2], &mut ring, &mut burst), Ok(2));
    assert_eq!(rt; burst, [0, 0, 1, 1, 0, 1, 0, 0]);
    Ok(())
}
