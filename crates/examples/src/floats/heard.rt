// What the bench's receiver tells at the float kind.
use super::told;
use channels::channel::Channel;
use cost::float::Float;
use link::refusal::Refusal;
use stations::station::Station;
use std::num::f32_from_bits_with_nan;
use std::test::*;

// Heard 1000000000100010 with strength 50 where a one was heard and 10 elsewhere: 110000 overrules three of 10, and 000000 would overrule
// the three of 50.
#[test]
fn the_weaker_sum_is_overruled(rt: HostRuntime) -> Result<(), Fail> {
    let mut burst = [10.0; 16];
    burst[0] = -50.0;
    burst[10] = -50.0;
    burst[14] = -50.0;
    let mut station = Station::<Float>::open(rt.alloc(), Channel::Bench)?;
    assert_eq!(rt; station.hear(&burst), told(0, 0x41F0_0000, 16));
    assert_eq!(rt; station.message(), [1, 1, 0, 0, 0, 0].as_slice());
    Ok(())
}

// Half of the step from 1000 to the next float.
const HALF_A_STEP: f32 = 0.000030517578125;

// Overruled at places 10, 4 and 2, which carry coded bits 1, 2 and 5: twice half a step and 1000 are the next float, 1000 and then twice
// half a step are 1000. Every message but 000000 costs 2000 at least.
#[test]
fn sizes_add_up_in_the_order_of_the_coded_bits(rt: HostRuntime) -> Result<(), Fail> {
    let mut burst = [1000.0; 16];
    burst[10] = -1000.0;
    burst[4] = -HALF_A_STEP;
    burst[2] = -HALF_A_STEP;
    let mut station = Station::<Float>::open(rt.alloc(), Channel::Bench)?;
    assert_eq!(rt; station.hear(&burst), told(0, 0x447A_0000, 16));
    assert_eq!(rt; station.message(), [0, 0, 0, 0, 0, 0].as_slice());
    burst[10] = -HALF_A_STEP;
    burst[2] = -1000.0;
    assert_eq!(rt; station.hear(&burst), told(1, 0x447A_0001, 16));
    assert_eq!(rt; station.message(), [0, 0, 0, 0, 0, 0].as_slice());
    Ok(())
}

// What the bench sends of 100000, heard clean.
const SENT: [f32; 16] = [
    -1.0, 1.0, -1.0, 1.0, -1.0, 1.0, 1.0, 1.0, -1.0, 1.0, -1.0, 1.0, 1.0, 1.0, 1.0, 1.0,
];

#[test]
fn either_zero_is_not_heard(rt: HostRuntime) -> Result<(), Fail> {
    let mut station = Station::<Float>::open(rt.alloc(), Channel::Bench)?;
    assert_eq!(rt; station.hear(&SENT), told(0, 0, 16));
    let mut burst = SENT;
    burst[0] = 0.0;
    burst[3] = -0.0;
    assert_eq!(rt; station.hear(&burst), told(1, 0, 14));
    assert_eq!(rt; station.message(), [1, 0, 0, 0, 0, 0].as_slice());
    Ok(())
}

// The infinities, NaN and 1001, each before the places of the others.
const UNFIT: [(usize, u32); 4] = [
    (15, 0x7F80_0000),
    (11, 0xFF80_0000),
    (7, 0x7FC0_0000),
    (0, 0x447A_4000),
];

#[test]
fn the_first_unfit_sample_is_refused(rt: HostRuntime) -> Result<(), Fail> {
    let mut station = Station::<Float>::open(rt.alloc(), Channel::Bench)?;
    let mut burst = SENT;
    for (place, bits) in UNFIT {
        if let Some(sample) = burst.get_mut(place) {
            *sample = f32_from_bits_with_nan(bits);
        }
        assert_eq!(rt; station.hear(&burst), Err(Refusal::UnfitSample { place }));
    }
    assert_eq!(rt; station.hear(&SENT), told(0, 0, 16));
    Ok(())
}
