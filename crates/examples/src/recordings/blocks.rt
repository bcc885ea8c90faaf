// Blocks told: by each kind, after waiting, around a stolen burst, after a restart and after another opening.
use super::{Part, each_prints, plays};
use crate::bursts::{
    BCCH_0, BCCH_1, DATA24_0, DATA24_1, DATA24_2, DATA24_3, DATA96_0, DATA96_1, DATA96_2,
};
use std::test::*;

#[test]
fn bcch_blocks_come_burst_by_burst(rt: HostRuntime) -> Result<(), Fail> {
    plays(
        &rt,
        rt.alloc(),
        &[
            Part::Bytes(b"OP\x01\x00"),
            Part::Count(BCCH_0.burst),
            Part::Count(BCCH_1.burst),
            Part::Bytes(b"OP\x01\x01"),
            Part::Ranked(BCCH_1.burst),
            Part::Bytes(b"OP\x01\x02"),
            Part::Float(BCCH_0.burst),
            Part::Float(BCCH_1.burst),
        ],
        &[
            "O 1\nB 0 0 424 ",
            BCCH_0.message,
            "\nB 1 0 424 ",
            BCCH_1.message,
            "\nO 1\nB 0 0/0 424 ",
            BCCH_1.message,
            "\nO 1\nB 0 00000000 424 ",
            BCCH_0.message,
            "\nB 1 00000000 424 ",
            BCCH_1.message,
            "\n",
        ],
    )
}

#[test]
fn data_2_4_blocks_wait_for_three_bursts(rt: HostRuntime) -> Result<(), Fail> {
    plays(
        &rt,
        rt.alloc(),
        &[
            Part::Bytes(b"OP\x02\x01"),
            Part::Ranked(DATA24_0.burst),
            Part::Ranked(DATA24_1.burst),
            Part::Ranked(DATA24_2.burst),
            Part::Ranked(DATA24_3.burst),
            Part::Bytes(b"OP\x02\x02"),
            Part::Float(DATA24_0.burst),
            Part::Float(DATA24_1.burst),
            Part::Float(DATA24_2.burst),
            Part::Float(DATA24_3.burst),
        ],
        &[
            "O 2\nW 0\nW 1\nB 0 0/0 648 ",
            DATA24_0.message,
            "\nB 1 0/0 648 ",
            DATA24_1.message,
            "\nO 2\nW 0\nW 1\nB 0 00000000 648 ",
            DATA24_0.message,
            "\nB 1 00000000 648 ",
            DATA24_1.message,
            "\n",
        ],
    )
}

#[test]
fn data_9_6_blocks_wait_for_three_bursts(rt: HostRuntime) -> Result<(), Fail> {
    plays(
        &rt,
        rt.alloc(),
        &[
            Part::Bytes(b"OP\x03\x00"),
            Part::Count(DATA96_0.burst),
            Part::Count(DATA96_1.burst),
            Part::Count(DATA96_2.burst),
            Part::Bytes(b"OP\x03\x02"),
            Part::Float(DATA96_0.burst),
            Part::Float(DATA96_1.burst),
            Part::Float(DATA96_2.burst),
        ],
        &[
            "O 3\nW 0\nW 1\nB 0 0 648 ",
            DATA96_0.message,
            "\nO 3\nW 0\nW 1\nB 0 00000000 648 ",
            DATA96_0.message,
            "\n",
        ],
    )
}

#[test]
fn a_missed_burst_is_a_third_of_a_block(rt: HostRuntime) -> Result<(), Fail> {
    plays(
        &rt,
        rt.alloc(),
        &[
            Part::Bytes(b"OP\x02\x00"),
            Part::Count(DATA24_0.burst),
            Part::Count(DATA24_1.burst),
            Part::Bytes(b"MI"),
        ],
        &["O 2\nW 0\nW 1\nB 0 0 432 ", DATA24_0.message, "\n"],
    )
}

#[test]
fn a_stolen_burst_counts_nothing(rt: HostRuntime) -> Result<(), Fail> {
    plays(
        &rt,
        rt.alloc(),
        &[
            Part::Bytes(b"OP\x02\x00"),
            Part::Count(DATA24_0.burst),
            Part::Bytes(b"ST"),
            Part::Count(DATA24_1.burst),
            Part::Bytes(b"ST"),
            Part::Count(DATA24_2.burst),
        ],
        &[
            "O 2\nW 0\nS 1\nW 1\nS 2\nB 0 0 648 ",
            DATA24_0.message,
            "\n",
        ],
    )
}

// Restarted before burst 1, the receiver counts that one as burst 0, and block 1 as block 0.
#[test]
fn a_restart_in_mid_stream_counts_anew(rt: HostRuntime) -> Result<(), Fail> {
    plays(
        &rt,
        rt.alloc(),
        &[
            Part::Bytes(b"OP\x02\x00"),
            Part::Count(DATA24_0.burst),
            Part::Bytes(b"RE"),
            Part::Count(DATA24_1.burst),
            Part::Count(DATA24_2.burst),
            Part::Count(DATA24_3.burst),
        ],
        &["O 2\nW 0\nR\nW 0\nW 1\nB 0 0 648 ", DATA24_1.message, "\n"],
    )
}

#[test]
fn another_channel_and_kind_are_opened(rt: HostRuntime) -> Result<(), Fail> {
    plays(
        &rt,
        rt.alloc(),
        &[
            Part::Bytes(b"OP\x02\x00"),
            Part::Count(DATA24_0.burst),
            Part::Count(DATA24_1.burst),
            Part::Bytes(b"OP\x01\x01"),
            Part::Ranked(BCCH_0.burst),
            Part::Bytes(b"OP\x02\x00"),
            Part::Count(DATA24_0.burst),
        ],
        &[
            "O 2\nW 0\nW 1\nO 1\nB 0 0/0 424 ",
            BCCH_0.message,
            "\nO 2\nW 0\n",
        ],
    )
}

// Heard 1000000000100010, by the count kind and then with strength 50 where a one was heard and 10 elsewhere.
const LEVEL: [(&[u8], &str); 2] = [
    (
        b"OP\x00\x00HE\x00\x10\x01\x00\x00\x00\x00\x00\x00\x00\x00\x00\x01\x00\x00\x00\x01\x00",
        "O 0\nB 0 3 16 000000\n",
    ),
    (
        b"OP\x00\x01HE\x00\x10\xCE\x0A\x0A\x0A\x0A\x0A\x0A\x0A\x0A\x0A\xCE\x0A\x0A\x0A\xCE\x0A",
        "O 0\nB 0 3/30 16 110000\n",
    ),
];

#[test]
fn strength_decides_between_equal_counts(rt: HostRuntime) -> Result<(), Fail> {
    each_prints(&rt, rt.alloc(), &LEVEL)
}
