// Where the interleaver lays the bits, and where the scrambler turns them over.
use line::interleaver::Interleaved;
use line::laying::Line;
use line::scrambler::Scrambled;
use line::unpunctured::Unpunctured;
use std::test::*;

// Whether each coded bit j goes unturned to the burst place p beside it.
pub(crate) fn lays<L: Line>(line: &L, places: &[(usize, usize)]) -> bool {
    places
        .iter()
        .all(|&(j, p)| line.place_of(j) == Some((p, false)))
}

#[test]
fn two_rows_go_by_columns(rt: HostRuntime) -> Result<(), Fail> {
    let line = Interleaved(Unpunctured { bits: 16 });
    assert!(rt; line.suits());
    assert!(rt; lays(&line, &[(0, 0), (1, 10), (2, 4), (3, 14), (8, 1), (15, 7)]));
    Ok(())
}

#[test]
fn broken_rows_stay(rt: HostRuntime) -> Result<(), Fail> {
    let line = Interleaved(Unpunctured { bits: 12 });
    assert!(rt; !line.suits());
    assert!(rt; lays(&line, &[(0, 0), (1, 1), (8, 8), (11, 11)]));
    Ok(())
}

#[test]
fn bursts_of_the_channels_go_by_columns(rt: HostRuntime) -> Result<(), Fail> {
    let bcch = Interleaved(Unpunctured { bits: 424 });
    assert!(rt; bcch.suits());
    assert!(rt; lays(&bcch, &[(0, 0), (1, 265), (8, 1), (423, 211)]));
    let data = Interleaved(Unpunctured { bits: 648 });
    assert!(rt; data.suits());
    assert!(rt; lays(&data, &[(0, 0), (1, 405), (8, 1), (647, 323)]));
    Ok(())
}

// Whether bits stay in their places, and are turned over from place `from` on as the figures say.
fn turns<L: Line>(line: &L, from: usize, figures: &str) -> bool {
    (from..).zip(figures.as_bytes()).all(|(k, figure)| line.place_of(k)
        == Some((k, *figure == b'1')))
}

#[test]
fn the_masking_sequence_turns_bits_over(rt: HostRuntime) -> Result<(), Fail> {
    let line = Scrambled(Unpunctured { bits: 2048 });
    assert!(rt; line.suits());
    assert!(rt; turns(&line, 0, "00010011000110111100010000100101"));
    assert!(rt;
        turns(
            &line,
            1000,
            "010001000001000011110000001111101011111110101001",
        )
    );
    assert!(rt; turns(&line, 2016, "00010011010000000011101100000000"));
    assert_eq!(rt; line.place_of(2048), None);
    Ok(())
}

#[test]
fn the_scrambler_keeps_places_and_hands_a_no_on(rt: HostRuntime) -> Result<(), Fail> {
    let line = Scrambled(Interleaved(Unpunctured { bits: 16 }));
    assert!(rt; line.suits());
    assert_eq!(rt; (line.coded_bits(), line.burst_bits()), (16, 16));
    // bit 3 goes to place 14, and bit 1 to place 10
    assert_eq!(rt; line.place_of(3), Some((14, true)));
    assert_eq!(rt; line.place_of(1), Some((10, false)));
    assert!(rt; !Scrambled(Interleaved(Unpunctured { bits: 12 })).suits());
    Ok(())
}

// Scrambled twice, no bit is turned over.
#[test]
fn the_scrambler_undoes_itself(rt: HostRuntime) -> Result<(), Fail> {
    let line = Scrambled(Scrambled(Unpunctured { bits: 1024 }));
    for k in 0..1024 {
        assert_eq!(rt; line.place_of(k), Some((k, false)));
    }
    Ok(())
}
