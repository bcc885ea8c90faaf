// Reading the record at the front of some bytes.
ghost use Rattle.std.specs.Prelude.{◌∷◌, Option, Some};
ghost use Rattle.records.specs.Records.{Reads};
ghost use Rattle.records.specs.declared.record.Kind.{Kind};

use crate::record::{Kind, Record};
use channels::channel::Channel;

// The most samples that one record holds.
pub(crate) const MOST: usize = 1024;

// The record at the front of the bytes, read while a channel is open at that kind or none is open yet, and the rest of the bytes; none if
// they begin with none, with a cut one, with one of more than 1,024 samples, or, where no channel is open, with one that opens none.
pub fn next_record<'a>(opened: Option<Kind>, bytes: &'a [u8]) -> Option<(Record<'a>, &'a [u8])>
    ensures { Reads opened bytes.now result }
{
    match (opened, bytes) {
        (_, [b'O', b'P', channel, kind, rest @ ..]) => opening(*channel, *kind, rest),
        (Some(kind), [b'H', b'E', high, low, rest @ ..]) => heard(kind, *high, *low, rest),
        (Some(_), [b'M', b'I', rest @ ..]) => Some((Record::Miss, rest)),
        (Some(_), [b'S', b'T', rest @ ..]) => Some((Record::Stolen, rest)),
        (Some(_), [b'R', b'E', rest @ ..]) => Some((Record::Restart, rest)),
        _ => None,
    }
}

fn opening<'a>(channel: u8, kind: u8, rest: &'a [u8]) -> Option<(Record<'a>, &'a [u8])>
    ensures { (opened : Option Kind) → Reads opened (0x4F ∷ 0x50 ∷ channel ∷ kind ∷ rest.now) result }
{
    let channel = Channel::try_from(channel).ok()?;
    let kind = Kind::try_from(kind).ok()?;
    Some((Record::Open { channel, kind }, rest))
}

fn heard<'a>(kind: Kind, high: u8, low: u8, rest: &'a [u8]) -> Option<(Record<'a>, &'a [u8])>
    ensures { Reads (Some kind) (0x48 ∷ 0x45 ∷ high ∷ low ∷ rest.now) result }
{
    let count = usize::from(u16::from_be_bytes([high, low]));
    if count > MOST {
        return None;
    }
    let (bytes, rest) = rest.split_at_checked(kind.width() * count)?;
    Some((Record::Hear { count, bytes }, rest))
}
