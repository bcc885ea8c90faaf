// Codes and parity.
use std::test::*;
use trellis::code::Code;
use trellis::parity::remainder_of;

const CODE: Code = Code {
    rows: 2,
    taps: [0b111, 0b101, 0, 0, 0],
    memory: 2,
};

#[test]
fn taps_older_than_the_memory_are_unsound(rt: HostRuntime) -> Result<(), Fail> {
    assert!(rt; CODE.is_sound());
    let short = Code { memory: 1, ..CODE };
    assert!(rt; !short.is_sound());
    Ok(())
}

#[test]
fn power_16_leaves_the_lower_powers_of_the_generator(rt: HostRuntime) -> Result<(), Fail> {
    let run = [1, 0, 0, 0, 0, 0, 0, 0, 0, 0, 0, 0, 0, 0, 0, 0, 0];
    assert_eq!(rt; remainder_of(&run), 0x1021);
    Ok(())
}
