// The names that channels and kinds of cost have on the command line.
ghost use Rattle.sendburst.specs.Names.{channel_name, kind_name, Named};

use channels::channel::Channel;
use records::record::Kind;

const BENCH: &str = "bench";

const BCCH: &str = "bcch";

const DATA24: &str = "data24";

const DATA96: &str = "data96";

const COUNT: &str = "count";

const RANKED: &str = "ranked";

const FLOAT: &str = "float";

pub(crate) const CHANNELS: [&str; 4] = [BENCH, BCCH, DATA24, DATA96];

pub(crate) const KINDS: [&str; 3] = [COUNT, RANKED, FLOAT];

pub(crate) fn channel_named(name: &str) -> Option<Channel>
    ensures { Named channel_name name.now result }
{
    match name {
        BENCH => Some(Channel::Bench),
        BCCH => Some(Channel::Bcch),
        DATA24 => Some(Channel::Data24),
        DATA96 => Some(Channel::Data96),
        _ => None,
    }
}

pub(crate) fn kind_named(name: &str) -> Option<Kind>
    ensures { Named kind_name name.now result }
{
    match name {
        COUNT => Some(Kind::Count),
        RANKED => Some(Kind::Ranked),
        FLOAT => Some(Kind::Float),
        _ => None,
    }
}
