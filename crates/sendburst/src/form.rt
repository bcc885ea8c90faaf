// How bursts are written: each as a line of figures, or all as a recording, by the clean samples of a kind of cost.
ghost use Rattle.std.specs.Prelude.{◌≡◌, ◌*◌, ◌++◌, IfOk, MatchResult, OnOk, length};
ghost use Rattle.records.specs.Records.{width};
ghost use Rattle.records.specs.declared.spell.SpellError.TheVariants.{OutOfMemory};
ghost use Rattle.sendburst.specs.Written.{burst_written, clean_burst, clean_bytes, figure_line, heading, NotWritten};

use channels::channel::Channel;
use cost::count::Count;
use cost::float::Float;
use cost::kind::Cost;
use cost::ranked::Ranked;
use records::record::{Kind, Record};
use records::spell::{SpellError, spell};
use std::alloc::{AllocError, Global};

#[derive(Clone, Copy)]
pub(crate) enum Form {
    Figures,
    Recording(Kind),
}

impl Form {
    // What stands before the first burst; it fails for want of memory alone.
    pub(crate) fn begin(self, channel: Channel, written: &mut Vec<u8>) -> Result<(), SpellError>
        ensures { MatchResult result (λ _. written.new.items ≡ written.old.items ++ heading self channel) (λ e. e ≡ OutOfMemory) }
    {
        match self {
            Form::Figures => Ok(()),
            Form::Recording(kind) => spell(None, Record::Open { channel, kind }, written),
        }
    }

    // One burst, whose bits stand one to a byte; it fails only where a record would hold more than 1,024 samples, or for want of memory, and
    // what has then been added is free.
    pub(crate) fn put(
        self,
        heap: Global,
        burst: &[u8],
        written: &mut Vec<u8>,
    ) -> Result<(), SpellError>
        ensures { MatchResult result (λ _. written.new.items ≡ written.old.items ++ burst_written self burst.now) (NotWritten self burst.now) }
    {
        match self {
            Form::Figures => Ok(put_figures(burst, written)?),
            Form::Recording(kind) => {
                let samples = clean_burst(heap, kind, burst)?;
                let heard = Record::Hear {
                    count: burst.len(),
                    bytes: &samples,
                };
                spell(Some(kind), heard, written)
            },
        }
    }
}

fn put_figures(burst: &[u8], written: &mut Vec<u8>) -> Result<(), AllocError>
    ensures { OnOk result (written.new.items ≡ written.old.items ++ figure_line burst.now) }
{
    for bit in burst {
        written.push(if *bit > 0 { b'1' } else { b'0' })?;
    }
    written.push(b'\n')?;
    Ok(())
}

// The bytes that spell the clean samples of the bits of a burst.
fn clean_burst(heap: Global, kind: Kind, burst: &[u8]) -> Result<Vec<u8>, AllocError>
    ensures { IfOk result (λ samples. (samples.items ≡ clean_burst kind burst.now) × (length samples.items ≡ width kind * length burst.now)) }
{
    let mut samples = Vec::new(heap);
    for bit in burst {
        put_clean(kind, *bit > 0, &mut samples)?;
    }
    Ok(samples)
}

fn put_clean(kind: Kind, bit: bool, samples: &mut Vec<u8>) -> Result<(), AllocError>
    ensures { OnOk result (samples.new.items ≡ samples.old.items ++ clean_bytes kind bit) }
{
    match kind {
        Kind::Count => samples.push(Count::clean_sample(bit))?,
        Kind::Ranked => samples.push(Ranked::clean_sample(bit).cast_unsigned())?,
        Kind::Float => samples.extend_from_slice(&Float::clean_sample(bit).to_be_bytes())?,
    }
    Ok(())
}
