// Opening holds what it is handed against the rules, in the order of their numbers.
ghost use Rattle.std.specs.Prelude.{◌≡◌};
ghost use Rattle.link.specs.Opening.{Agrees};
ghost use Rattle.link.specs.Rules.{lengths_suit, line_suits};

use super::Format;
use crate::checks::unless;
use crate::proposal::Proposal;
use crate::refusal::Refusal;
use line::laying::Line;

pub(crate) const MOST_MESSAGE: usize = 512;

pub(crate) const MOST_PARITY: usize = 16;

pub(crate) const MOST_CODED: usize = 2048;

pub(crate) const MOST_BURST: usize = 1024;

fn lengths_suit(message: usize, parity: usize, depth: usize) -> bool
    ensures { result ≡ lengths_suit message parity depth }
{
    (1..=MOST_MESSAGE).contains(&message)
        && matches!(parity, 0 | MOST_PARITY)
        && matches!(depth, 1 | 3)
}

fn line_suits<L: Line>(line: &L, coded: usize) -> bool
    ensures { result ≡ line_suits L.Line line.now coded }
{
    line.suits()
        && (1..=MOST_CODED).contains(&line.coded_bits())
        && (1..=MOST_BURST).contains(&line.burst_bits())
        && line.coded_bits() == coded
}

impl<L: Line> Format<L> {
    pub(crate) fn agree<B: Copy>(proposal: Proposal<L>) -> Result<Format<L>, Refusal<B>>
        ensures { Agrees L.Line proposal result }
    {
        let Proposal {
            code,
            message,
            parity,
            depth,
            line,
        } = proposal;
        unless(code.is_sound(), Refusal::UnsoundCode)?;
        unless(lengths_suit(message, parity, depth), Refusal::BadLengths)?;
        let coded = code.rows * (message + parity + code.memory);
        unless(line_suits(&line, coded), Refusal::UnsuitedLine)?;
        let burst = line.burst_bits();
        Ok(Format {
            code,
            message,
            parity,
            depth,
            burst,
            line,
        })
    }
}
