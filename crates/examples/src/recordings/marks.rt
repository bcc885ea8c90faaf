// Openings, bursts missed and stolen, and restarts on every channel; of the bench the documented example too.
use super::{Part, each_prints, plays};
use crate::bursts::{ZEROS_144, ZEROS_192, ZEROS_480};
use std::test::*;

const BENCH: [(&[u8], &str); 6] = [
    (b"", ""),
    (
        b"OP\x00\x00HE\x00\x10\x01\x00\x00\x00\x01\x00\x00\x00\x01\x00\x01\x00\x00\x00\x00\x00MIHE\x00\x01\x02",
        "O 0\nB 0 1 16 100000\nB 1 0 0 000000\nX 6 1\n",
    ),
    (
        b"OP\x00\x00MIMIOP\x00\x00MI",
        "O 0\nB 0 0 0 000000\nB 1 0 0 000000\nO 0\nB 0 0 0 000000\n",
    ),
    (
        b"OP\x00\x00MIREMI",
        "O 0\nB 0 0 0 000000\nR\nB 0 0 0 000000\n",
    ),
    (
        b"OP\x00\x01MIREMI",
        "O 0\nB 0 0/0 0 000000\nR\nB 0 0/0 0 000000\n",
    ),
    (
        b"OP\x00\x02MISTREMI",
        "O 0\nB 0 00000000 0 000000\nX 8 0\nR\nB 0 00000000 0 000000\n",
    ),
];

#[test]
fn bench(rt: HostRuntime) -> Result<(), Fail> {
    each_prints(&rt, rt.alloc(), &BENCH)
}

#[test]
fn bcch(rt: HostRuntime) -> Result<(), Fail> {
    plays(
        &rt,
        rt.alloc(),
        &[
            Part::Bytes(b"OP\x01\x00MISTREMI"),
            Part::Bytes(b"OP\x01\x01MI"),
            Part::Bytes(b"OP\x01\x02MI"),
        ],
        &[
            "O 1\nB 0 0 0 ",
            ZEROS_192,
            "\nX 8 0\nR\nB 0 0 0 ",
            ZEROS_192,
            "\nO 1\nB 0 0/0 0 ",
            ZEROS_192,
            "\nO 1\nB 0 00000000 0 ",
            ZEROS_192,
            "\n",
        ],
    )
}

#[test]
fn data_2_4(rt: HostRuntime) -> Result<(), Fail> {
    plays(
        &rt,
        rt.alloc(),
        &[
            Part::Bytes(b"OP\x02\x00STMIMIMISTRESTMI"),
            Part::Bytes(b"OP\x02\x01MIMIMI"),
            Part::Bytes(b"OP\x02\x02STMIMIMI"),
        ],
        &[
            "O 2\nS 0\nW 0\nW 1\nB 0 0 0 ",
            ZEROS_144,
            "\nS 3\nR\nS 0\nW 0\nO 2\nW 0\nW 1\nB 0 0/0 0 ",
            ZEROS_144,
            "\nO 2\nS 0\nW 0\nW 1\nB 0 00000000 0 ",
            ZEROS_144,
            "\n",
        ],
    )
}

#[test]
fn data_9_6(rt: HostRuntime) -> Result<(), Fail> {
    plays(
        &rt,
        rt.alloc(),
        &[
            Part::Bytes(b"OP\x03\x00STMIMIMISTRESTMI"),
            Part::Bytes(b"OP\x03\x01MIMIMI"),
            Part::Bytes(b"OP\x03\x02MIMIMI"),
        ],
        &[
            "O 3\nS 0\nW 0\nW 1\nB 0 0 0 ",
            ZEROS_480,
            "\nS 3\nR\nS 0\nW 0\nO 3\nW 0\nW 1\nB 0 0/0 0 ",
            ZEROS_480,
            "\nO 3\nW 0\nW 1\nB 0 00000000 0 ",
            ZEROS_480,
            "\n",
        ],
    )
}
