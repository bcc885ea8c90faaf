// The limits of a receiver: how long a message may be, how many bursts are counted, and what parity refuses.
use crate::told::report;
use channels::channel::Channel;
use channels::laying::Laying;
use cost::count::Count;
use line::unpunctured::Unpunctured;
use link::memory::Memory;
use link::proposal::Proposal;
use link::receiver::Receiver;
use link::refusal::Refusal;
use link::report::{Answer, Report};
use std::test::*;
use trellis::code::Code;

// One row, 1 + D.
const ROW: Code = Code {
    rows: 1,
    taps: [0b11, 0, 0, 0, 0],
    memory: 1,
};

// The number of the refusal that opening meets, if it meets one.
fn refusal_of(message: usize) -> Option<u8> {
    let line = Unpunctured {
        bits: message.saturating_add(1),
    };
    let proposal = Proposal {
        code: ROW,
        message,
        parity: 0,
        depth: 1,
        line,
    };
    let refused = Receiver::<Count, Unpunctured>::open(proposal).err()?;
    Some(refused.number())
}

#[test]
fn a_message_has_at_most_512_bits(rt: HostRuntime) -> Result<(), Fail> {
    assert_eq!(rt; refusal_of(512), None);
    assert_eq!(rt; refusal_of(513), Some(2));
    assert_eq!(rt; refusal_of(0), Some(2));
    Ok(())
}

// Misses so many bursts, and tells the number of the last block.
fn missed(
    receiver: &mut Receiver<Count, Laying>,
    times: usize,
    memory: &mut Memory<Count>,
) -> usize {
    let mut last = 0;
    for _ in 0..times {
        if let Ok(Answer::Block(report)) = receiver.miss(memory) {
            last = report.block;
        }
    }
    last
}

#[test]
fn a_million_bursts_are_counted(rt: HostRuntime) -> Result<(), Fail> {
    let mut receiver = Channel::Bench.open::<Count>();
    let mut memory = Memory {
        ring: &mut [2; 16],
        costs: &mut [None; 8],
        paths: &mut [0; 32],
        block: &mut [0; 6],
    };
    assert_eq!(rt; missed(&mut receiver, 1_000_000, &mut memory), 999_999);
    match receiver.miss(&mut memory) {
        Err(refusal) => {
            assert_eq!(rt; refusal.number(), 5);
            Ok(())
        },
        Ok(_) => Err(Fail::new("a burst too many was counted")),
    }
}

// What a burst is answered where parity is asked for.
fn with_parity(burst: &[u8], block: &mut [u8]) -> Result<Answer<Count>, Refusal<Report<Count>>> {
    let line = Unpunctured { bits: 18 };
    let proposal = Proposal {
        code: ROW,
        message: 1,
        parity: 16,
        depth: 1,
        line,
    };
    let mut receiver = Receiver::<Count, Unpunctured>::open(proposal)?;
    let mut memory = Memory {
        ring: &mut [2; 18],
        costs: &mut [None; 4],
        paths: &mut [0; 36],
        block,
    };
    receiver.hear(burst, &mut memory)
}

#[test]
fn wrong_parity_is_refused_and_writes_nothing(rt: HostRuntime) -> Result<(), Fail> {
    // the run 1 and sixteen zeros: a one sums into its own step and the next
    let wrong = [1, 1, 0, 0, 0, 0, 0, 0, 0, 0, 0, 0, 0, 0, 0, 0, 0, 0];
    // the run 1 and its parity 0001000000100001
    let right = [1, 1, 0, 0, 1, 1, 0, 0, 0, 0, 0, 1, 1, 0, 0, 0, 1, 1];
    let mut block = [7];
    let refused = Refusal::WrongParity(report(0, 0, 18));
    assert_eq!(rt; refused.number(), 11);
    assert_eq!(rt; with_parity(&wrong, &mut block), Err(refused));
    assert_eq!(rt; block, [7]);
    assert_eq!(rt;
        with_parity(&right, &mut block),
        Ok(Answer::Block(report(0, 0, 18)))
    );
    assert_eq!(rt; block, [1]);
    Ok(())
}
