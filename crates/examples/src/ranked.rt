// The ranked kind: how its costs grow, compare, stop at the ceiling, and are taken up.
use cost::kind::Cost;
use cost::ranked::{Ranked, RankedForm};
use std::test::*;

// A cost grown by one sample against one bit, so many times.
fn grown(mut cost: Ranked, times: usize, sample: i8, bit: bool) -> Ranked {
    if Ranked::is_fit(sample) {
        for _ in 0..times {
            cost = cost.grown(sample, bit);
        }
    }
    cost
}

fn form(count: u16, strength: u32) -> RankedForm {
    RankedForm { count, strength }
}

// How many times zero is grown, by which sample, against which bit, and what comes of it.
const GROWN: [(usize, i8, bool, (u16, u32)); 12] = [
    (1, 50, false, (0, 0)),
    (1, 50, true, (1, 50)),
    (1, -127, true, (0, 0)),
    (1, -127, false, (1, 127)),
    (1, 0, false, (0, 0)),
    (1, 0, true, (0, 0)),
    (3, -10, false, (3, 30)),
    // past the last count lies the ceiling
    (65_535, 1, true, (65_535, 65_535)),
    (65_536, 1, true, (65_535, 8_322_945)),
    (65_537, 1, true, (65_535, 8_322_945)),
    (65_535, -127, false, (65_535, 8_322_945)),
    (65_536, -127, false, (65_535, 8_322_945)),
];

#[test]
fn overruled_samples_add_up(rt: HostRuntime) -> Result<(), Fail> {
    for (times, sample, bit, (count, strength)) in GROWN {
        let sum = grown(Ranked::ZERO, times, sample, bit);
        assert_eq!(rt; sum.to_plain(), form(count, strength));
    }
    Ok(())
}

#[test]
fn at_the_last_count_other_samples_add_nothing(rt: HostRuntime) -> Result<(), Fail> {
    let last = grown(Ranked::ZERO, 65_535, 1, true);
    assert_eq!(rt; grown(last, 1, 0, true).to_plain(), form(65_535, 65_535));
    assert_eq!(rt; grown(last, 1, 127, false).to_plain(), form(65_535, 65_535));
    Ok(())
}

#[test]
fn minus_128_is_unfit(rt: HostRuntime) -> Result<(), Fail> {
    assert!(rt; !Ranked::is_fit(-128));
    assert!(rt; Ranked::is_fit(-127) && Ranked::is_fit(127) && Ranked::is_fit(0));
    assert!(rt; Ranked::is_silent(0) && !Ranked::is_silent(1) && !Ranked::is_silent(-1));
    Ok(())
}

#[test]
fn counts_compare_before_strengths(rt: HostRuntime) -> Result<(), Fail> {
    let weak = grown(Ranked::ZERO, 1, 126, true);
    let strong = grown(Ranked::ZERO, 1, 127, true);
    let two = grown(Ranked::ZERO, 2, 1, true);
    assert!(rt; weak.at_most(strong) && !strong.at_most(weak));
    assert!(rt; strong.at_most(two) && !two.at_most(strong));
    assert!(rt; two.at_most(two));
    Ok(())
}

// Forms, and the pairs that they are taken up as: zero where the strength is more than 127 times the count.
const TAKEN_UP: [((u16, u32), (u16, u32)); 8] = [
    ((0, 0), (0, 0)),
    ((1, 0), (1, 0)),
    ((1, 127), (1, 127)),
    ((1, 128), (0, 0)),
    ((0, 1), (0, 0)),
    ((2, 4_294_967_295), (0, 0)),
    ((65_535, 8_322_945), (65_535, 8_322_945)),
    ((65_535, 8_322_946), (0, 0)),
];

#[test]
fn forms_too_strong_for_their_count_are_zero(rt: HostRuntime) -> Result<(), Fail> {
    for (plain, (count, strength)) in TAKEN_UP {
        let cost = Ranked::of_plain(form(plain.0, plain.1));
        assert_eq!(rt; cost.to_plain(), form(count, strength));
    }
    Ok(())
}
