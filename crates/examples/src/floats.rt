// The float kind: which samples are fit, how its costs grow, compare and are written, and what they are taken up from.
use cost::float::Float;
use cost::kind::Cost;
use link::refusal::Refusal;
use link::report::{Answer, Report};
use std::alloc::{AllocError, Global};
use std::num::{f32_from_bits_with_nan, f32_to_bits_with_nan};
use std::test::*;

mod heard;
mod rings;

// A cost grown by one sample after the other, each told by its bits, against one bit.
fn grown(cost: Float, samples: &[u32], bit: bool) -> Float {
    samples.iter().fold(
        cost,
        |sum, sample| sum.grown(f32_from_bits_with_nan(*sample), bit),
    )
}

// Zero grown so.
#[tactic(auto, using(cost::specs::SumLaws::zero_is, cost::specs::SumLaws::zero_is_cost))]
fn sum(samples: &[u32], bit: bool) -> Float {
    grown(Float::ZERO, samples, bit)
}

fn shown(heap: Global, cost: Float) -> Result<String, AllocError> {
    format!(in heap; "{cost}")
}

fn taken_up(form: u32) -> Float {
    Float::of_plain(f32_from_bits_with_nan(form))
}

type Reply = Result<Answer<Float>, Refusal<Report<Float>>>;

// What is told of a block, its cost by its bits.
fn told(block: usize, cost: u32, heard: usize) -> Reply {
    Ok(Answer::Block(Report {
        block,
        cost: taken_up(cost),
        heard,
    }))
}

// 10, 50 and 1000, and half of the step from 1000 to the next float, which is 2^-14.
const TEN: u32 = 0x4120_0000;

const FIFTY: u32 = 0x4248_0000;

const THOUSAND: u32 = 0x447A_0000;

const HALF_A_STEP: u32 = 0x3800_0000;

// The sign, which makes a sample favour a one.
const MINUS: u32 = 0x8000_0000;

// Samples, the bit against which zero is grown by them, and how the sum is written.
const GROWN: [(&[u32], bool, &str); 17] = [
    (&[], true, "00000000"),
    (&[TEN], true, "41200000"),
    (&[TEN], false, "00000000"),
    (&[MINUS | TEN], true, "00000000"),
    (&[MINUS | TEN], false, "41200000"),
    (&[TEN, TEN, TEN], true, "41F00000"),
    (&[FIFTY, FIFTY, FIFTY], true, "43160000"),
    (&[FIFTY, MINUS | TEN, FIFTY, FIFTY], true, "43160000"),
    (&[FIFTY, MINUS | TEN, FIFTY, FIFTY], false, "41200000"),
    // either zero
    (&[TEN, 0, MINUS, TEN], true, "41A00000"),
    (&[TEN, 0, MINUS, TEN], false, "00000000"),
    // the least float
    (&[1], true, "00000001"),
    (&[1, 1, 1], true, "00000003"),
    (&[MINUS | 1], false, "00000001"),
    (&[MINUS | 1], true, "00000000"),
    // clean samples
    (&[0x3F80_0000, 0xBF80_0000], true, "3F800000"),
    (&[0x3F80_0000, 0xBF80_0000], false, "3F800000"),
];

#[test]
fn overruled_samples_add_their_sizes(rt: HostRuntime) -> Result<(), Fail> {
    for (samples, bit, written) in GROWN {
        assert_eq!(rt; shown(rt.alloc(), sum(samples, bit))?.as_str(), written);
    }
    Ok(())
}

// A tie goes to the even one of the two floats beside it.
const ROUNDED: [(&[u32], &str); 4] = [
    (&[THOUSAND, HALF_A_STEP, HALF_A_STEP], "447A0000"),
    (&[HALF_A_STEP, HALF_A_STEP, THOUSAND], "447A0001"),
    (&[HALF_A_STEP, THOUSAND, HALF_A_STEP], "447A0000"),
    (
        &[HALF_A_STEP, HALF_A_STEP, THOUSAND, HALF_A_STEP],
        "447A0002",
    ),
];

#[test]
fn each_sum_is_rounded_before_the_next(rt: HostRuntime) -> Result<(), Fail> {
    for (samples, written) in ROUNDED {
        assert_eq!(rt; shown(rt.alloc(), sum(samples, true))?.as_str(), written);
    }
    Ok(())
}

// The zeros, the least and the largest subnormal floats, clean samples, and up to 1000.
const FIT: [u32; 6] = [0, 1, 0x007F_FFFF, 0x3F80_0000, 0x4479_FFFF, THOUSAND];

// From the next float beyond 1000 up: 1001, the largest float and infinity.
const TOO_LARGE: [u32; 4] = [0x447A_0001, 0x447A_4000, 0x7F7F_FFFF, 0x7F80_0000];

#[test]
fn samples_up_to_1000_are_fit(rt: HostRuntime) -> Result<(), Fail> {
    for sign in [0, MINUS] {
        for size in FIT {
            assert!(rt; Float::is_fit(f32_from_bits_with_nan(sign | size)));
        }
        for size in TOO_LARGE {
            assert!(rt; !Float::is_fit(f32_from_bits_with_nan(sign | size)));
        }
    }
    Ok(())
}

#[test]
fn clean_samples_are_1_and_minus_1(rt: HostRuntime) -> Result<(), Fail> {
    for (bit, bits) in [(false, 0x3F80_0000), (true, 0xBF80_0000)] {
        assert_eq!(rt; f32_to_bits_with_nan(Float::clean_sample(bit)), bits);
    }
    assert!(rt; Float::is_silent(Float::NOTHING));
    Ok(())
}

#[test]
fn only_zeros_are_silent(rt: HostRuntime) -> Result<(), Fail> {
    for sign in [0, MINUS] {
        assert!(rt; Float::is_silent(f32_from_bits_with_nan(sign)));
        assert!(rt; !Float::is_silent(f32_from_bits_with_nan(sign | 1)));
        assert!(rt; !Float::is_silent(f32_from_bits_with_nan(sign | THOUSAND)));
    }
    Ok(())
}

// Quiet, and then signalling.
const NANS: [u32; 6] = [
    0x7FC0_0000,
    0x7FC1_2345,
    0x7FFF_FFFF,
    0x7F80_0001,
    0x7FA5_5A5A,
    0x7FBF_FFFF,
];

#[test]
fn nan_is_unfit_and_adds_nothing(rt: HostRuntime) -> Result<(), Fail> {
    let thirty = sum(&[TEN, TEN, TEN], true);
    for sign in [0, MINUS] {
        for bits in NANS {
            assert!(rt; !Float::is_fit(f32_from_bits_with_nan(sign | bits)));
            for bit in [false, true] {
                let same = grown(thirty, &[sign | bits], bit);
                assert_eq!(rt; shown(rt.alloc(), same)?.as_str(), "41F00000");
            }
        }
    }
    Ok(())
}

// Forms, and the floats that they are taken up as.
const TAKEN_UP: [(u32, u32); 17] = [
    (0, 0),
    (1, 1),
    (0x3F80_0000, 0x3F80_0000),
    (0x447A_0001, 0x447A_0001),
    (0x7F7F_FFFF, 0x7F7F_FFFF),
    (0x7F80_0000, 0x7F80_0000),
    // with a sign
    (0x8000_0000, 0),
    (0x8000_0001, 0),
    (0xBF80_0000, 0),
    (0xFF7F_FFFF, 0),
    (0xFF80_0000, 0),
    // NaN
    (0x7FC0_0000, 0),
    (0xFFC0_0000, 0),
    (0x7F80_0001, 0),
    (0xFF80_0001, 0),
    (0x7FFF_FFFF, 0),
    (0xFFFF_FFFF, 0),
];

#[test]
fn forms_with_a_sign_and_nan_are_zero(rt: HostRuntime) -> Result<(), Fail> {
    for (form, float) in TAKEN_UP {
        let laid = taken_up(form).to_plain();
        assert_eq!(rt; f32_to_bits_with_nan(laid), float);
    }
    Ok(())
}

const WRITTEN: [(u32, &str); 6] = [
    (0, "00000000"),
    (0x0123_4567, "01234567"),
    (0x09AB_CDEF, "09ABCDEF"),
    (0x7F7F_FFFF, "7F7FFFFF"),
    (0x7F80_0000, "7F800000"),
    (0xFF80_0000, "00000000"),
];

#[test]
fn a_cost_is_written_as_its_bits(rt: HostRuntime) -> Result<(), Fail> {
    for (form, written) in WRITTEN {
        assert_eq!(rt; shown(rt.alloc(), taken_up(form))?.as_str(), written);
    }
    Ok(())
}

// 1000 is less than half of the step up to the largest float, 2^104.
#[test]
fn the_largest_costs_stay(rt: HostRuntime) -> Result<(), Fail> {
    for (form, written) in [(0x7F7F_FFFF, "7F7FFFFF"), (0x7F80_0000, "7F800000")] {
        let same = grown(taken_up(form), &[THOUSAND, THOUSAND], true);
        assert_eq!(rt; shown(rt.alloc(), same)?.as_str(), written);
    }
    Ok(())
}

// Forms of costs, each above the one before.
const RISING: [u32; 6] = [0, 1, THOUSAND, 0x447A_0001, 0x7F7F_FFFF, 0x7F80_0000];

#[test]
fn costs_compare_as_numbers(rt: HostRuntime) -> Result<(), Fail> {
    for (k, a) in RISING.iter().enumerate() {
        for (m, b) in RISING.iter().enumerate() {
            assert_eq!(rt; taken_up(*a).at_most(taken_up(*b)), k <= m);
        }
    }
    let zero = sum(&[], true);
    let nan = taken_up(0x7FC0_0000);
    assert!(rt; nan.at_most(zero) && zero.at_most(nan));
    Ok(())
}
