// The 9.6 kbit/s data channel: 480 message bits and no parity, punctured to 648, interleaved and scrambled, three bursts a block.
ghost use Rattle.channels.specs.Channels.{Proposes};
ghost use Rattle.channels.specs.declared.channel.Channel.TheVariants.{Data96};

use crate::bcch;
use crate::laying::Laying;
use link::proposal::Proposal;
use puncture::mask::tables::Tables;
use trellis::code::Code;

// The code of the broadcast control channel.
pub const CODE: Code = bcch::CODE;

pub const MESSAGE: usize = 480;

pub const PARITY: usize = 0;

pub const DEPTH: usize = 3;

pub const STEPS: usize = 484;

pub const PREFIX: [&[u8]; 2] = [&[1, 1, 1, 1, 1], &[0, 1, 0, 1, 1]];

pub const MIDDLE: [&[u8]; 2] = [&[0, 1, 1], &[1, 0, 1]];

pub const TIMES: usize = 158;

pub const SUFFIX: [&[u8]; 2] = [&[1, 1, 1, 1, 1], &[1, 1, 0, 1, 0]];

pub const MASKS: Tables<'static> = Tables {
    steps: STEPS,
    prefix: Some(&PREFIX),
    middle: &MIDDLE,
    times: TIMES,
    suffix: Some(&SUFFIX),
};

// What either end of the channel is opened with.
pub fn proposal() -> Proposal<Laying>
    ensures { Proposes Data96 result }
{
    Proposal {
        code: CODE,
        message: MESSAGE,
        parity: PARITY,
        depth: DEPTH,
        line: Laying::punctured(&MASKS),
    }
}
