// The broadcast control channel: 192 message bits and 16 of parity, every coded bit sent, interleaved and scrambled, one burst a block.
ghost use Rattle.channels.specs.Channels.{Proposes};
ghost use Rattle.channels.specs.declared.channel.Channel.TheVariants.{Bcch};

use crate::laying::Laying;
use line::interleaver::Interleaved;
use line::scrambler::Scrambled;
use line::unpunctured::Unpunctured;
use link::proposal::Proposal;
use trellis::code::Code;

// Rows 1 + D^3 + D^4 and 1 + D + D^2 + D^4.
pub const CODE: Code = Code {
    rows: 2,
    taps: [0b11001, 0b10111, 0, 0, 0],
    memory: 4,
};

pub const MESSAGE: usize = 192;

pub const PARITY: usize = 16;

pub const DEPTH: usize = 1;

pub const LINE: Laying = Laying::Scrambled(Scrambled(Interleaved(Unpunctured { bits: 424 })));

// What either end of the channel is opened with.
pub fn proposal() -> Proposal<Laying>
    ensures { Proposes Bcch result }
{
    Proposal {
        code: CODE,
        message: MESSAGE,
        parity: PARITY,
        depth: DEPTH,
        line: LINE,
    }
}
