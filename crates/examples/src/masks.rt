// Puncturing masks: which bits they keep, and which faults make one keep every bit.
use line::laying::Line;
use puncture::mask::Mask;
use puncture::mask::tables::Tables;
use std::process::Abort;
use std::test::*;

// What a mask is made of, and a figure for each coded bit: 1 where it is kept.
#[derive(Clone, Copy)]
struct Case {
    tables: Tables<'static>,
    kept: &'static str,
}

// Whether the kept bits have the places from 0 on, unturned, and the others none.
fn keeps(mask: &Mask, kept: &str) -> bool {
    let bits = kept.as_bytes();
    let ones = bits.iter().enumerate().filter(|(_, bit)| **bit == b'1');
    let mut noughts = bits.iter().enumerate().filter(|(_, bit)| **bit != b'1');
    let sent = bits.iter().filter(|bit| **bit == b'1').count();
    ones.enumerate()
        .all(|(k, (j, _))| mask.place_of(j) == Some((k, false)))
        && noughts.all(|(j, _)| mask.place_of(j).is_none())
        && mask.place_of(bits.len()).is_none()
        && (mask.coded_bits(), mask.burst_bits()) == (bits.len(), sent)
}

// Each mask suits as told, and keeps its bits.
fn each_keeps(rt: &impl Abort, cases: &[Case], suits: bool) -> Result<(), Fail> {
    for case in cases {
        let mask = Mask::new(&case.tables);
        assert_eq!(rt; mask.suits(), suits);
        assert!(rt; keeps(&mask, case.kept));
    }
    Ok(())
}

const SOUND: [Case; 7] = [
    // by columns 10, 01, 01, two left over, 01
    Case {
        tables: Tables {
            steps: 6,
            prefix: Some(&[&[1], &[0]]),
            middle: &[&[0], &[1]],
            times: 2,
            suffix: Some(&[&[0], &[1]]),
        },
        kept: "100101111101",
    },
    // by columns 10, 01, 10, 01, one left over
    Case {
        tables: Tables {
            steps: 5,
            prefix: None,
            middle: &[&[1, 0], &[0, 1]],
            times: 2,
            suffix: None,
        },
        kept: "1001100111",
    },
    // a middle applied no times
    Case {
        tables: Tables {
            steps: 3,
            prefix: Some(&[&[1], &[0]]),
            middle: &[&[0], &[0]],
            times: 0,
            suffix: None,
        },
        kept: "101111",
    },
    // tables that fill the steps
    Case {
        tables: Tables {
            steps: 4,
            prefix: Some(&[&[0]]),
            middle: &[&[1]],
            times: 2,
            suffix: Some(&[&[0]]),
        },
        kept: "0110",
    },
    Case {
        tables: Tables {
            steps: 2,
            prefix: None,
            middle: &[&[1], &[0], &[0], &[0], &[1]],
            times: 2,
            suffix: None,
        },
        kept: "1000110001",
    },
    Case {
        tables: Tables {
            steps: 25,
            prefix: None,
            middle: &[&[0, 0, 0, 0, 0, 0, 0, 0, 0, 0, 0, 1]],
            times: 2,
            suffix: None,
        },
        kept: "0000000000010000000000011",
    },
    Case {
        tables: Tables {
            steps: 0,
            prefix: None,
            middle: &[&[1]],
            times: 0,
            suffix: None,
        },
        kept: "",
    },
];

#[test]
fn columns_left_over_lie_before_the_suffix(rt: HostRuntime) -> Result<(), Fail> {
    each_keeps(&rt, &SOUND, true)
}

const FAULTY: Tables<'static> = Tables {
    steps: 4,
    prefix: None,
    middle: &[&[1], &[0]],
    times: 5,
    suffix: None,
};

// Two rows over four steps, kept whole.
const WHOLE: &str = "11111111";

const ENTRIES: [Case; 4] = [
    Case {
        tables: Tables {
            middle: &[&[1, 2], &[1, 1]],
            times: 2,
            ..FAULTY
        },
        kept: WHOLE,
    },
    Case {
        tables: Tables {
            prefix: Some(&[&[255], &[1]]),
            times: 2,
            ..FAULTY
        },
        kept: WHOLE,
    },
    Case {
        tables: Tables {
            times: 2,
            suffix: Some(&[&[1], &[3]]),
            ..FAULTY
        },
        kept: WHOLE,
    },
    // a fault tells where the middle is applied no times
    Case {
        tables: Tables {
            middle: &[&[0, 2], &[1, 1]],
            times: 0,
            ..FAULTY
        },
        kept: WHOLE,
    },
];

#[test]
fn entries_are_ones_and_noughts(rt: HostRuntime) -> Result<(), Fail> {
    each_keeps(&rt, &ENTRIES, false)
}

const ROWS: [Case; 8] = [
    // ragged rows
    Case {
        tables: Tables {
            middle: &[&[1, 0], &[1]],
            times: 1,
            ..FAULTY
        },
        kept: WHOLE,
    },
    Case {
        tables: Tables {
            prefix: Some(&[&[1, 0], &[1]]),
            times: 1,
            ..FAULTY
        },
        kept: WHOLE,
    },
    Case {
        tables: Tables {
            times: 1,
            suffix: Some(&[&[1], &[1, 0]]),
            ..FAULTY
        },
        kept: WHOLE,
    },
    // other rows than the middle's
    Case {
        tables: Tables {
            prefix: Some(&[&[1]]),
            times: 1,
            ..FAULTY
        },
        kept: WHOLE,
    },
    Case {
        tables: Tables {
            prefix: Some(&[&[1], &[1], &[1]]),
            times: 1,
            ..FAULTY
        },
        kept: WHOLE,
    },
    Case {
        tables: Tables {
            times: 1,
            suffix: Some(&[&[1]]),
            ..FAULTY
        },
        kept: WHOLE,
    },
    // no rows, and six
    Case {
        tables: Tables {
            middle: &[],
            times: 0,
            ..FAULTY
        },
        kept: "",
    },
    Case {
        tables: Tables {
            middle: &[&[1], &[0], &[0], &[0], &[1], &[1]],
            times: 1,
            ..FAULTY
        },
        kept: "111111111111111111111111",
    },
];

#[test]
fn tables_have_one_to_five_rows_alike(rt: HostRuntime) -> Result<(), Fail> {
    each_keeps(&rt, &ROWS, false)
}

const PERIODS: [Case; 4] = [
    Case {
        tables: Tables {
            middle: &[&[], &[]],
            times: 1,
            ..FAULTY
        },
        kept: WHOLE,
    },
    Case {
        tables: Tables {
            middle: &[&[], &[]],
            times: 0,
            ..FAULTY
        },
        kept: WHOLE,
    },
    Case {
        tables: Tables {
            steps: 26,
            middle: &[&[0, 0, 0, 0, 0, 0, 0, 0, 0, 0, 0, 0, 1]],
            times: 2,
            ..FAULTY
        },
        kept: "11111111111111111111111111",
    },
    Case {
        tables: Tables {
            steps: 26,
            middle: &[&[1]],
            times: 2,
            suffix: Some(&[&[0, 0, 0, 0, 0, 0, 0, 0, 0, 0, 0, 0, 1]]),
            ..FAULTY
        },
        kept: "11111111111111111111111111",
    },
];

#[test]
fn a_period_is_of_1_to_12_columns(rt: HostRuntime) -> Result<(), Fail> {
    each_keeps(&rt, &PERIODS, false)
}

const LENGTHS: [Case; 4] = [
    Case {
        tables: FAULTY,
        kept: WHOLE,
    },
    Case {
        tables: Tables {
            prefix: Some(&[&[1], &[0]]),
            times: 3,
            suffix: Some(&[&[1], &[0]]),
            ..FAULTY
        },
        kept: WHOLE,
    },
    Case {
        tables: Tables {
            middle: &[&[1, 0, 1, 0, 1], &[1, 0, 1, 0, 1]],
            times: 1,
            ..FAULTY
        },
        kept: WHOLE,
    },
    Case {
        tables: Tables {
            times: 18_446_744_073_709_551_615,
            ..FAULTY
        },
        kept: WHOLE,
    },
];

#[test]
fn tables_are_no_longer_than_the_steps(rt: HostRuntime) -> Result<(), Fail> {
    each_keeps(&rt, &LENGTHS, false)
}
