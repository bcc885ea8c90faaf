// What both ends check: a rule, a memory that is lent, and the count.
ghost use Rattle.std.specs.Prelude.{◌≡◌};
ghost use Rattle.link.specs.Refusals.{refusal, told};
ghost use Rattle.link.specs.Rules.{enough, room, unless};

use crate::refusal::Refusal;

pub(crate) const MOST_BURSTS: usize = 1_000_000;

// Passes where a rule holds, and refuses for the reason given where it is broken.
pub(crate) fn unless<B: Copy>(holds: bool, reason: Refusal<B>) -> Result<(), Refusal<B>>
    ensures { refusal result ≡ unless holds (told reason) }
{
    if holds { Ok(()) } else { Err(reason) }
}

// Passes where as much memory is lent as is asked for.
pub(crate) fn check_size<B: Copy>(size: usize, lent: usize) -> Result<(), Refusal<B>>
    ensures { refusal result ≡ enough size lent }
{
    unless(size <= lent, Refusal::ShortMemory { needed: size })
}

// Passes where one burst more may be counted.
pub(crate) fn check_count<B: Copy>(counted: usize) -> Result<(), Refusal<B>>
    ensures { refusal result ≡ room counted }
{
    unless(counted < MOST_BURSTS, Refusal::CountFull)
}
