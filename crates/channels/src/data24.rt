// The 2.4 kbit/s data channel: 144 message bits and no parity, punctured to 648, interleaved and scrambled, three bursts a block.
ghost use Rattle.channels.specs.Channels.{Proposes};
ghost use Rattle.channels.specs.declared.channel.Channel.TheVariants.{Data24};

use crate::laying::Laying;
use link::proposal::Proposal;
use puncture::mask::tables::Tables;
use trellis::code::Code;

// Rows 1 + D^2 + D^4, 1 + D + D^3 + D^4, 1 + D + D^2 + D^3 + D^4, 1 + D^2 + D^3 + D^4 and 1 + D + D^2 + D^4.
pub const CODE: Code = Code {
    rows: 5,
    taps: [0b10101, 0b11011, 0b11111, 0b11101, 0b10111],
    memory: 4,
};

pub const MESSAGE: usize = 144;

pub const PARITY: usize = 0;

pub const DEPTH: usize = 3;

pub const STEPS: usize = 148;

pub const PREFIX: [&[u8]; 5] = [&[1, 1, 1], &[1, 0, 1], &[1, 0, 1], &[0, 1, 0], &[1, 1, 0]];

pub const MIDDLE: [&[u8]; 5] = [&[1, 1, 1], &[1, 1, 1], &[1, 0, 1], &[1, 1, 1], &[1, 1, 0]];

pub const TIMES: usize = 41;

pub const SUFFIX: [&[u8]; 5] = [&[1, 1, 1], &[1, 0, 1], &[1, 0, 1], &[0, 1, 0], &[0, 1, 1]];

pub const MASKS: Tables<'static> = Tables {
    steps: STEPS,
    prefix: Some(&PREFIX),
    middle: &MIDDLE,
    times: TIMES,
    suffix: Some(&SUFFIX),
};

// What either end of the channel is opened with.
pub fn proposal() -> Proposal<Laying>
    ensures { Proposes Data24 result }
{
    Proposal {
        code: CODE,
        message: MESSAGE,
        parity: PARITY,
        depth: DEPTH,
        line: Laying::punctured(&MASKS),
    }
}
