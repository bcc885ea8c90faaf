// The bench: how a message is coded and sent, and what hearing a burst answers.
use crate::told::report;
use channels::bench::{CODE, LINE};
use channels::channel::Channel;
use cost::count::Count;
use line::laying::Line;
use link::memory::Memory;
use link::refusal::Refusal;
use link::report::{Answer, Report};
use std::test::*;

fn coded(run: &[u8]) -> [u8; 16] {
    let mut bits = [false; 16];
    CODE.encode(run, &mut bits);
    bits.map(|bit| bit as u8)
}

fn sent(run: &[u8]) -> [u8; 16] {
    let mut burst = [2; 16];
    for (j, bit) in coded(run).iter().enumerate() {
        if let Some((place, turned)) = LINE.place_of(j) {
            if let Some(sample) = burst.get_mut(place) {
                *sample = *bit ^ turned as u8;
            }
        }
    }
    burst
}

// In how many places two bursts differ.
fn apart(a: &[u8; 16], b: &[u8; 16]) -> usize {
    a.iter().zip(b).filter(|(x, y)| x != y).count()
}

// What a burst is answered, and the block memory after it.
fn heard(burst: &[u8]) -> (Result<Answer<Count>, Refusal<Report<Count>>>, [u8; 6]) {
    let mut receiver = Channel::Bench.open::<Count>();
    let mut block = [9; 6];
    let mut memory = Memory {
        ring: &mut [2; 16],
        costs: &mut [None; 8],
        paths: &mut [0; 32],
        block: &mut block,
    };
    let reply = receiver.hear(burst, &mut memory);
    (reply, block)
}

#[test]
fn one_bit_is_coded_and_sent(rt: HostRuntime) -> Result<(), Fail> {
    let run = [1, 0, 0, 0, 0, 0];
    assert_eq!(rt;
        coded(&run),
        [1, 1, 1, 0, 1, 1, 0, 0, 0, 0, 0, 0, 0, 0, 0, 0]
    );
    assert_eq!(rt;
        sent(&run),
        [1, 0, 1, 0, 1, 0, 0, 0, 1, 0, 1, 0, 0, 0, 0, 0]
    );
    Ok(())
}

#[test]
fn a_tie_keeps_the_path_that_drops_a_zero(rt: HostRuntime) -> Result<(), Fail> {
    let burst = [1, 0, 0, 0, 0, 0, 0, 0, 0, 0, 1, 0, 0, 0, 1, 0];
    assert_eq!(rt; apart(&burst, &sent(&[0, 0, 0, 0, 0, 0])), 3);
    assert_eq!(rt; apart(&burst, &sent(&[1, 1, 0, 0, 0, 0])), 3);
    assert_eq!(rt;
        heard(&burst),
        (Ok(Answer::Block(report(0, 3, 16))), [0, 0, 0, 0, 0, 0])
    );
    Ok(())
}

#[test]
fn what_is_sent_is_heard_at_no_cost(rt: HostRuntime) -> Result<(), Fail> {
    let run = [1, 0, 1, 1, 0, 1];
    assert_eq!(rt;
        heard(&sent(&run)),
        (Ok(Answer::Block(report(0, 0, 16))), run)
    );
    Ok(())
}
