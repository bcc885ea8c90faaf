// Records spelt in bytes, as they may stand while a channel is open at some kind of cost, or none is open yet.
use channels::channel::Channel;
use records::record::{Kind, Record};
use records::spell::{SpellError, spell};
use std::alloc::Global;
use std::process::Abort;
use std::test::*;

const COUNT: Option<Kind> = Some(Kind::Count);

const RANKED: Option<Kind> = Some(Kind::Ranked);

const FLOAT: Option<Kind> = Some(Kind::Float);

fn opening(channel: Channel, kind: Kind) -> Record<'static> {
    Record::Open { channel, kind }
}

fn heard<'a>(count: usize, bytes: &'a [u8]) -> Record<'a> {
    Record::Hear { count, bytes }
}

#[test]
fn each_record_has_its_bytes(rt: HostRuntime) -> Result<(), Fail> {
    let mut bytes = Vec::new(rt.alloc());
    for (opened, record) in [
        (None, opening(Channel::Data24, Kind::Ranked)),
        (RANKED, heard(3, b"\x00\x01\x81")),
        (RANKED, Record::Miss),
        (RANKED, Record::Stolen),
        (RANKED, Record::Restart),
        (RANKED, opening(Channel::Bench, Kind::Float)),
        (FLOAT, heard(2, b"\x3F\x80\x00\x00\xC2\x48\x00\x00")),
        (FLOAT, heard(0, b"")),
        (FLOAT, Record::Miss),
        (FLOAT, opening(Channel::Bcch, Kind::Count)),
        (COUNT, heard(1, b"\x02")),
    ] {
        spell(opened, record, &mut bytes)?;
    }
    assert_eq!(rt;
        bytes.as_slice(),
        b"OP\x02\x01HE\x00\x03\x00\x01\x81MISTRE\
          OP\x00\x02HE\x00\x02\x3F\x80\x00\x00\xC2\x48\x00\x00HE\x00\x00MI\
          OP\x01\x00HE\x00\x01\x02"
            .as_slice()
    );
    Ok(())
}

#[test]
fn a_record_that_may_not_stand_is_not_spelt(rt: HostRuntime) -> Result<(), Fail> {
    let mut bytes = b"MI".to_vec(rt.alloc())?;
    for (opened, record, error) in [
        (None, Record::Miss, SpellError::Unopened),
        (None, Record::Stolen, SpellError::Unopened),
        (None, Record::Restart, SpellError::Unopened),
        (None, heard(1, b"\x02"), SpellError::Unopened),
        (None, heard(1025, &[2; 1025]), SpellError::Unopened),
        // a sample too few or too many
        (COUNT, heard(3, b"\x00\x01"), SpellError::WrongWidth),
        (
            RANKED,
            heard(3, b"\x00\x01\x81\x00"),
            SpellError::WrongWidth,
        ),
        (FLOAT, heard(2, &[0; 4]), SpellError::WrongWidth),
        (FLOAT, heard(2, &[0; 12]), SpellError::WrongWidth),
        // a byte too few or too many
        (FLOAT, heard(2, &[0; 7]), SpellError::WrongWidth),
        (FLOAT, heard(2, &[0; 9]), SpellError::WrongWidth),
        // as many bytes as the other width asks for
        (FLOAT, heard(2, &[0; 2]), SpellError::WrongWidth),
        (COUNT, heard(2, &[0; 8]), SpellError::WrongWidth),
        (COUNT, heard(1025, &[2; 1025]), SpellError::TooLong),
        (RANKED, heard(1025, b""), SpellError::TooLong),
        (FLOAT, heard(1025, &[0; 4100]), SpellError::TooLong),
        (FLOAT, heard(1025, &[0; 1024]), SpellError::TooLong),
    ] {
        assert_eq!(rt; spell(opened, record, &mut bytes), Err(error));
        assert_eq!(rt; bytes.as_slice(), b"MI".as_slice());
    }
    Ok(())
}

// The bytes of 1,024 samples are spelt behind their mark and count.
fn spells_most(
    rt: &impl Abort,
    heap: Global,
    opened: Option<Kind>,
    samples: &[u8],
) -> Result<(), Fail> {
    let mut bytes = Vec::new(heap);
    spell(opened, heard(1024, samples), &mut bytes)?;
    let mut expected = b"HE\x04\x00".to_vec(heap)?;
    expected.extend_from_slice(samples)?;
    assert_eq!(rt; bytes.as_slice(), expected.as_slice());
    Ok(())
}

#[test]
fn a_record_of_1024_samples_is_spelt(rt: HostRuntime) -> Result<(), Fail> {
    spells_most(&rt, rt.alloc(), COUNT, &[2; 1024])?;
    spells_most(&rt, rt.alloc(), RANKED, &[2; 1024])?;
    spells_most(&rt, rt.alloc(), FLOAT, &[2; 4096])
}
