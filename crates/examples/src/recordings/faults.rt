// Every reason for refusal 12: its line tells where the record's mark stands, and nothing is read after it.
use super::{Part, each_prints, long_burst, plays};
use crate::bursts::DATA24_0;
use std::test::*;

const FIRST: [(&[u8], &str); 4] = [
    (b"MIOP\x00\x00", "X 12 0\n"),
    (b"STOP\x00\x00", "X 12 0\n"),
    (b"REOP\x00\x00", "X 12 0\n"),
    (b"HE\x00\x00OP\x00\x00", "X 12 0\n"),
];

#[test]
fn only_an_opening_comes_first(rt: HostRuntime) -> Result<(), Fail> {
    each_prints(&rt, rt.alloc(), &FIRST)
}

const UNKNOWN: [(&[u8], &str); 7] = [
    (b"XXOP\x00\x00", "X 12 0\n"),
    (b"OP\x00\x00REMOMI", "O 0\nR\nX 12 6\n"),
    (b"OP\x03\x01op\x00\x00", "O 3\nX 12 4\n"),
    (b"OP\x04\x00MI", "X 12 0\n"),
    (b"OP\x00\x03MI", "X 12 0\n"),
    (b"OP\x02\x00MIOP\xFF\x01", "O 2\nW 0\nX 12 6\n"),
    (b"OP\x02\x00MIOP\x01\xFF", "O 2\nW 0\nX 12 6\n"),
];

#[test]
fn unknown_marks_channels_and_kinds(rt: HostRuntime) -> Result<(), Fail> {
    each_prints(&rt, rt.alloc(), &UNKNOWN)
}

const CUT: [(&[u8], &str); 12] = [
    (b"O", "X 12 0\n"),
    (b"OP", "X 12 0\n"),
    (b"OP\x00", "X 12 0\n"),
    (b"OP\x01\x01OP\x02", "O 1\nX 12 4\n"),
    (b"OP\x00\x00H", "O 0\nX 12 4\n"),
    (b"OP\x00\x00M", "O 0\nX 12 4\n"),
    (b"OP\x00\x00S", "O 0\nX 12 4\n"),
    (b"OP\x00\x00R", "O 0\nX 12 4\n"),
    (b"OP\x00\x00HE", "O 0\nX 12 4\n"),
    (b"OP\x00\x00HE\x00", "O 0\nX 12 4\n"),
    (b"OP\x00\x00HE\x00\x01", "O 0\nX 12 4\n"),
    (b"OP\x00\x00HE\x00\x02\x01", "O 0\nX 12 4\n"),
];

#[test]
fn cut_records(rt: HostRuntime) -> Result<(), Fail> {
    each_prints(&rt, rt.alloc(), &CUT)
}

// Cut inside a float, and between two.
const CUT_FLOATS: [(&[u8], &str); 7] = [
    (b"OP\x00\x02HE\x00\x01", "O 0\nX 12 4\n"),
    (b"OP\x00\x02HE\x00\x01\x3F", "O 0\nX 12 4\n"),
    (b"OP\x00\x02HE\x00\x02\x3F\x80\x00\x00", "O 0\nX 12 4\n"),
    (b"OP\x00\x02HE\x00\x02\x3F\x80\x00\x00\xBF", "O 0\nX 12 4\n"),
    (
        b"OP\x00\x02HE\x00\x02\x3F\x80\x00\x00\xBF\x80",
        "O 0\nX 12 4\n",
    ),
    (
        b"OP\x00\x02HE\x00\x02\x3F\x80\x00\x00\xBF\x80\x00",
        "O 0\nX 12 4\n",
    ),
    (b"OP\x00\x02REHE\x00\x01\x3F\x80\x00", "O 0\nR\nX 12 6\n"),
];

#[test]
fn cut_floats(rt: HostRuntime) -> Result<(), Fail> {
    each_prints(&rt, rt.alloc(), &CUT_FLOATS)
}

// The second record wants one byte more than there is.
#[test]
fn a_long_burst_cut(rt: HostRuntime) -> Result<(), Fail> {
    plays(
        &rt,
        rt.alloc(),
        &[
            Part::Bytes(b"OP\x02\x00"),
            Part::Count(DATA24_0.burst),
            Part::Bytes(b"HE\x02\x8D"),
            Part::Count(DATA24_0.burst),
        ],
        &["O 2\nW 0\nX 12 656\n"],
    )
}

#[test]
fn most_samples(rt: HostRuntime) -> Result<(), Fail> {
    long_burst(
        &rt,
        rt.alloc(),
        b"OP\x00\x00HE\x04\x00",
        1024,
        "O 0\nX 6 1024\n",
    )?;
    long_burst(
        &rt,
        rt.alloc(),
        b"OP\x00\x00HE\x04\x01",
        1025,
        "O 0\nX 12 4\n",
    )
}

// The limit, and what refusal 6 tells, are of samples and not of their bytes.
#[test]
fn most_floats(rt: HostRuntime) -> Result<(), Fail> {
    long_burst(
        &rt,
        rt.alloc(),
        b"OP\x00\x02HE\x04\x00",
        4096,
        "O 0\nX 6 1024\n",
    )?;
    long_burst(
        &rt,
        rt.alloc(),
        b"OP\x00\x02HE\x04\x00",
        4095,
        "O 0\nX 12 4\n",
    )?;
    long_burst(
        &rt,
        rt.alloc(),
        b"OP\x00\x02HE\x04\x01",
        4100,
        "O 0\nX 12 4\n",
    )
}
