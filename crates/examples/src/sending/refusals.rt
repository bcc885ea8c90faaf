// Sends that are refused, by the first rule that is broken: neither the memory lent nor the sender is another afterwards.
use super::by_hand::{BURSTS, MESSAGES, Small, open_small};
use channels::channel::Channel;
use channels::laying::Laying;
use link::refusal::{Group, Refusal};
use link::sender::Sender;
use std::convert::Infallible;
use std::process::Abort;
use std::test::*;

// Whether a message is refused, and memory of so many bytes left as it was.
fn refuses(
    sender: &mut Sender<Small>,
    message: &[u8],
    ring: &mut [u8],
    burst: &mut [u8],
    refusal: Refusal<Infallible>,
) -> bool {
    sender.send(message, ring, burst) == Err(refusal)
        && ring.iter().all(|byte| *byte == 7)
        && burst.iter().all(|byte| *byte == 7)
}

// The messages are those that only a later rule refuses.
const WITH_ROOM: [(&[u8], Refusal<Infallible>); 5] = [
    (&[], Refusal::WrongLength),
    (&[1, 0, 0, 1, 1, 0], Refusal::WrongLength),
    (&[1, 0, 0, 1, 1, 0, 0, 2], Refusal::WrongLength),
    (&[1, 0, 2, 1, 255, 0, 0], Refusal::BadBit { place: 2 }),
    (&[1, 0, 0, 1, 1, 0, 2], Refusal::BadBit { place: 6 }),
];

#[test]
fn a_refused_send_changes_nothing(rt: HostRuntime) -> Result<(), Fail> {
    let mut sender = open_small()?;
    let mut ring = [7; 24];
    let mut burst = [7; 8];
    let ring_short = Refusal::ShortMemory { needed: 24 };
    assert!(rt;
        refuses(
            &mut sender,
            &[2],
            &mut ring[..23],
            &mut burst[..7],
            ring_short
        )
    );
    let burst_short = Refusal::ShortMemory { needed: 8 };
    assert!(rt; refuses(&mut sender, &[2], &mut ring, &mut burst[..7], burst_short));
    for (message, refusal) in WITH_ROOM {
        assert!(rt; refuses(&mut sender, message, &mut ring, &mut burst, refusal));
    }
    assert_eq!(rt; sender.send(&MESSAGES[0], &mut ring, &mut burst), Ok(0));
    assert_eq!(rt; burst, BURSTS[0]);
    Ok(())
}

#[test]
fn refusals_tell_number_group_and_detail(rt: HostRuntime) -> Result<(), Fail> {
    for (refusal, number, detail) in [
        (Refusal::ShortMemory::<Infallible> { needed: 24 }, 4, 24),
        (Refusal::CountFull, 5, 0),
        (Refusal::WrongLength, 9, 0),
        (Refusal::BadBit { place: 2 }, 10, 2),
    ] {
        assert_eq!(rt; (refusal.number(), refusal.detail()), (number, detail));
        assert_eq!(rt; refusal.group(), Group::Host);
    }
    Ok(())
}

// Sends so many messages, and tells the number of the last burst.
fn sent(
    sender: &mut Sender<Laying>,
    times: usize,
    ring: &mut [u8],
    burst: &mut [u8],
) -> Option<usize> {
    let mut last = None;
    for _ in 0..times {
        last = sender.send(&[1, 0, 0, 0, 0, 0], ring, burst).ok();
    }
    last
}

#[test]
fn a_million_bursts_are_sent(rt: HostRuntime) -> Result<(), Fail> {
    let mut sender = Channel::Bench.open_sender();
    let mut ring = [7; 16];
    let mut burst = [7; 16];
    assert_eq!(rt;
        sent(&mut sender, 1_000_000, &mut ring, &mut burst),
        Some(999_999)
    );
    let before = (ring, burst);
    let full = Err(Refusal::CountFull);
    assert_eq!(rt;
        sender.send(&[1, 0, 0, 0, 0, 0], &mut ring, &mut burst),
        full
    );
    // before the message is looked at, and after the memory
    assert_eq!(rt; sender.send(&[2], &mut ring, &mut burst), full);
    assert_eq!(rt;
        sender.send(&[2], &mut ring, &mut burst[..15]),
        Err(Refusal::ShortMemory { needed: 16 })
    );
    assert_eq!(rt; (ring, burst), before);
    Ok(())
}
