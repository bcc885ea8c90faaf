// The bench channel: 6 message bits and no parity, every coded bit sent, interleaved and not scrambled, one burst a block.
ghost use Rattle.channels.specs.Channels.{Proposes};
ghost use Rattle.channels.specs.declared.channel.Channel.TheVariants.{Bench};

use crate::laying::Laying;
use line::interleaver::Interleaved;
use line::unpunctured::Unpunctured;
use link::proposal::Proposal;
use trellis::code::Code;

// Rows 1 + D + D^2 and 1 + D^2.
pub const CODE: Code = Code {
    rows: 2,
    taps: [0b111, 0b101, 0, 0, 0],
    memory: 2,
};

pub const MESSAGE: usize = 6;

pub const PARITY: usize = 0;

pub const DEPTH: usize = 1;

pub const LINE: Laying = Laying::Whole(Interleaved(Unpunctured { bits: 16 }));

// What either end of the channel is opened with.
pub fn proposal() -> Proposal<Laying>
    ensures { Proposes Bench result }
{
    Proposal {
        code: CODE,
        message: MESSAGE,
        parity: PARITY,
        depth: DEPTH,
        line: LINE,
    }
}
