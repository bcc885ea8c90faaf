// Calls that are refused: each prints its line and, parity aside, counts nothing.
use super::{Part, each_prints, plays};
use crate::bursts::{BCCH_0, BCCH_1, BCCH_WRONG_PARITY, DATA24_0};
use std::test::*;

const BENCH: [(&[u8], &str); 3] = [
    (b"OP\x00\x00STMI", "O 0\nX 8 0\nB 0 0 0 000000\n"),
    (b"OP\x00\x00HE\x00\x00MI", "O 0\nX 6 0\nB 0 0 0 000000\n"),
    (
        b"OP\x00\x00HE\x00\x10\x00\x00\x00\x00\x00\x03\x00\x00\x00\x00\x00\x00\x00\x00\x00\x00MI",
        "O 0\nX 7 5\nB 0 0 0 000000\n",
    ),
];

#[test]
fn bench(rt: HostRuntime) -> Result<(), Fail> {
    each_prints(&rt, rt.alloc(), &BENCH)
}

// A block of wrong parity is counted, so the next one skips a number.
#[test]
fn wrong_parity_is_refused_and_counted(rt: HostRuntime) -> Result<(), Fail> {
    plays(
        &rt,
        rt.alloc(),
        &[
            Part::Bytes(b"OP\x01\x00"),
            Part::Count(BCCH_WRONG_PARITY),
            Part::Count(BCCH_1.burst),
            Part::Bytes(b"OP\x01\x01"),
            Part::Ranked(BCCH_0.burst),
            Part::Ranked(BCCH_WRONG_PARITY),
            Part::Bytes(b"OP\x01\x02"),
            Part::Float(BCCH_WRONG_PARITY),
            Part::Float(BCCH_1.burst),
        ],
        &[
            "O 1\nX 11 0\nB 1 0 424 ",
            BCCH_1.message,
            "\nO 1\nB 0 0/0 424 ",
            BCCH_0.message,
            "\nX 11 0\nO 1\nX 11 0\nB 1 00000000 424 ",
            BCCH_1.message,
            "\n",
        ],
    )
}

#[test]
fn wrong_numbers_of_samples(rt: HostRuntime) -> Result<(), Fail> {
    plays(
        &rt,
        rt.alloc(),
        &[
            Part::Bytes(b"OP\x01\x00"),
            Part::Count(DATA24_0.burst),
            Part::Count("0110"),
            Part::Count(""),
            Part::Count(BCCH_0.burst),
            Part::Bytes(b"OP\x03\x01"),
            Part::Ranked(BCCH_0.burst),
            Part::Ranked(DATA24_0.burst),
            Part::Bytes(b"OP\x02\x02"),
            Part::Float(BCCH_0.burst),
            Part::Float("0110"),
            Part::Float(""),
            Part::Float(DATA24_0.burst),
        ],
        &[
            "O 1\nX 6 648\nX 6 4\nX 6 0\nB 0 0 424 ",
            BCCH_0.message,
            "\nO 3\nX 6 424\nW 0\nO 2\nX 6 424\nX 6 4\nX 6 0\nW 0\n",
        ],
    )
}

#[test]
fn unfit_samples(rt: HostRuntime) -> Result<(), Fail> {
    plays(
        &rt,
        rt.alloc(),
        &[
            Part::Bytes(b"OP\x01\x00"),
            Part::CountBut(BCCH_0.burst, 211, 3),
            Part::Count(BCCH_0.burst),
            Part::Bytes(b"OP\x01\x01"),
            Part::RankedBut(BCCH_0.burst, 423, 0x80),
            Part::Ranked(BCCH_0.burst),
        ],
        &[
            "O 1\nX 7 211\nB 0 0 424 ",
            BCCH_0.message,
            "\nO 1\nX 7 423\nB 0 0/0 424 ",
            BCCH_0.message,
            "\n",
        ],
    )
}

// The next floats beyond 1000, the infinities, and NaN of either sign; 1000 itself, for the zero at place 2, is fit.
#[test]
fn unfit_floats(rt: HostRuntime) -> Result<(), Fail> {
    plays(
        &rt,
        rt.alloc(),
        &[
            Part::Bytes(b"OP\x01\x02"),
            Part::FloatBut(BCCH_0.burst, 0, 0x447A_0001),
            Part::FloatBut(BCCH_0.burst, 1, 0xC47A_0001),
            Part::FloatBut(BCCH_0.burst, 211, 0x7F80_0000),
            Part::FloatBut(BCCH_0.burst, 212, 0xFF80_0000),
            Part::FloatBut(BCCH_0.burst, 422, 0x7FC0_0000),
            Part::FloatBut(BCCH_0.burst, 423, 0xFF80_0001),
            Part::FloatBut(BCCH_0.burst, 2, 0x447A_0000),
        ],
        &[
            "O 1\nX 7 0\nX 7 1\nX 7 211\nX 7 212\nX 7 422\nX 7 423\nB 0 00000000 424 ",
            BCCH_0.message,
            "\n",
        ],
    )
}

// The ranked sample 2 is a weak zero, and the count kind has no sample of -127.
#[test]
fn samples_are_read_by_the_kind_opened(rt: HostRuntime) -> Result<(), Fail> {
    plays(
        &rt,
        rt.alloc(),
        &[
            Part::Bytes(b"OP\x02\x01"),
            Part::RankedBut(DATA24_0.burst, 0, 2),
            Part::RankedBut(DATA24_0.burst, 323, 0x80),
            Part::Ranked(DATA24_0.burst),
            Part::Bytes(b"OP\x02\x00"),
            Part::CountBut(DATA24_0.burst, 647, 0x81),
            Part::CountBut(DATA24_0.burst, 647, 2),
        ],
        &["O 2\nW 0\nX 7 323\nW 1\nO 2\nX 7 647\nW 0\n"],
    )
}
