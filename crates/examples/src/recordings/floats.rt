// The float kind by hand: four bytes a sample, the high one first, and a cost as the eight hexadecimal digits of its bits.
use super::{Part, each_prints, plays};
use std::test::*;

// Heard 1000000000100010 with strength 50 where a one was heard and 10 elsewhere, then what is sent of 100000, clean, and with -0.0 at
// place 0.
const BENCH: [(&[u8], &str); 3] = [
    (
        b"OP\x00\x02HE\x00\x10\
          \xC2\x48\x00\x00\x41\x20\x00\x00\x41\x20\x00\x00\x41\x20\x00\x00\
          \x41\x20\x00\x00\x41\x20\x00\x00\x41\x20\x00\x00\x41\x20\x00\x00\
          \x41\x20\x00\x00\x41\x20\x00\x00\xC2\x48\x00\x00\x41\x20\x00\x00\
          \x41\x20\x00\x00\x41\x20\x00\x00\xC2\x48\x00\x00\x41\x20\x00\x00",
        "O 0\nB 0 41F00000 16 110000\n",
    ),
    (
        b"OP\x00\x02HE\x00\x10\
          \xBF\x80\x00\x00\x3F\x80\x00\x00\xBF\x80\x00\x00\x3F\x80\x00\x00\
          \xBF\x80\x00\x00\x3F\x80\x00\x00\x3F\x80\x00\x00\x3F\x80\x00\x00\
          \xBF\x80\x00\x00\x3F\x80\x00\x00\xBF\x80\x00\x00\x3F\x80\x00\x00\
          \x3F\x80\x00\x00\x3F\x80\x00\x00\x3F\x80\x00\x00\x3F\x80\x00\x00",
        "O 0\nB 0 00000000 16 100000\n",
    ),
    (
        b"OP\x00\x02HE\x00\x10\
          \x80\x00\x00\x00\x3F\x80\x00\x00\xBF\x80\x00\x00\x3F\x80\x00\x00\
          \xBF\x80\x00\x00\x3F\x80\x00\x00\x3F\x80\x00\x00\x3F\x80\x00\x00\
          \xBF\x80\x00\x00\x3F\x80\x00\x00\xBF\x80\x00\x00\x3F\x80\x00\x00\
          \x3F\x80\x00\x00\x3F\x80\x00\x00\x3F\x80\x00\x00\x3F\x80\x00\x00",
        "O 0\nB 0 00000000 15 100000\n",
    ),
];

#[test]
fn bench(rt: HostRuntime) -> Result<(), Fail> {
    each_prints(&rt, rt.alloc(), &BENCH)
}

// What the bench sends of 100000.
const SENT: &str = "1010100010100000";

// The least floats are heard, and one that speaks against its bit is the cost; the other messages cost 4 at least.
#[test]
fn zeros_are_not_heard_and_the_least_floats_are(rt: HostRuntime) -> Result<(), Fail> {
    plays(
        &rt,
        rt.alloc(),
        &[
            Part::Bytes(b"OP\x00\x02"),
            Part::FloatBut(SENT, 0, 0x0000_0000),
            Part::FloatBut(SENT, 15, 0x8000_0000),
            Part::FloatBut(SENT, 0, 0x8000_0001),
            Part::FloatBut(SENT, 0, 0x0000_0001),
            Part::FloatBut(SENT, 15, 0x0000_0001),
            Part::FloatBut(SENT, 15, 0x8000_0001),
        ],
        &[
            "O 0\nB 0 00000000 15 100000\nB 1 00000000 15 100000\n",
            "B 2 00000000 16 100000\nB 3 00000001 16 100000\n",
            "B 4 00000000 16 100000\nB 5 00000001 16 100000\n",
        ],
    )
}

// At another kind's width a burst would end elsewhere, and no record would begin there.
#[test]
fn samples_are_as_wide_as_the_kind_last_opened(rt: HostRuntime) -> Result<(), Fail> {
    plays(
        &rt,
        rt.alloc(),
        &[
            Part::Bytes(b"OP\x00\x02"),
            Part::Float(SENT),
            Part::Bytes(b"MIOP\x00\x00"),
            Part::Count(SENT),
            Part::Bytes(b"MIOP\x00\x02"),
            Part::Float(SENT),
            Part::Bytes(b"HE\x00\x01\x3F\x80\x00\x00OP\x00\x01"),
            Part::Ranked(SENT),
            Part::Bytes(b"HE\x00\x01\x7FOP\x00\x02"),
            Part::Float(SENT),
            Part::Bytes(b"RE"),
        ],
        &[
            "O 0\nB 0 00000000 16 100000\nB 1 00000000 0 000000\n",
            "O 0\nB 0 0 16 100000\nB 1 0 0 000000\n",
            "O 0\nB 0 00000000 16 100000\nX 6 1\n",
            "O 0\nB 0 0/0 16 100000\nX 6 1\n",
            "O 0\nB 0 00000000 16 100000\nR\n",
        ],
    )
}
