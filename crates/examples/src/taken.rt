// Stations that take another receiver: the memory of the one before is lent anew.
use crate::told::report;
use channels::channel::Channel;
use cost::count::Count;
use link::refusal::Refusal;
use link::report::Answer;
use stations::station::Station;
use std::test::*;

// What the bench sends of 100000, with place 2 turned over.
const BURST: [u8; 16] = [1, 0, 0, 0, 1, 0, 0, 0, 1, 0, 1, 0, 0, 0, 0, 0];

#[test]
fn a_receiver_taken_begins_in_blank_memory(rt: HostRuntime) -> Result<(), Fail> {
    let mut station = Station::<Count>::open(rt.alloc(), Channel::Data96)?;
    assert_eq!(rt; station.miss(), Ok(Answer::Waiting { burst: 0 }));
    station.take(Channel::Bench.open::<Count>())?;
    assert_eq!(rt; station.message(), [0; 6].as_slice());
    assert_eq!(rt; station.hear(&BURST), Ok(Answer::Block(report(0, 1, 16))));
    assert_eq!(rt; station.message(), [1, 0, 0, 0, 0, 0].as_slice());
    station.take(Channel::Data24.open::<Count>())?;
    assert_eq!(rt; station.message(), [0; 144].as_slice());
    assert_eq!(rt;
        station.hear(&BURST),
        Err(Refusal::WrongCount { given: 16 })
    );
    assert_eq!(rt; station.stolen(), Ok(0));
    Ok(())
}

#[test]
fn a_station_of_a_receiver_hears_as_the_receiver_does(rt: HostRuntime) -> Result<(), Fail> {
    let mut station = Station::<Count>::with(rt.alloc(), Channel::Bench.open::<Count>())?;
    assert_eq!(rt; station.hear(&BURST), Ok(Answer::Block(report(0, 1, 16))));
    assert_eq!(rt; station.message(), [1, 0, 0, 0, 0, 0].as_slice());
    Ok(())
}
