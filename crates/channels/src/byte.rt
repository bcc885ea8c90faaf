// The byte that names a channel.
ghost use Rattle.std.specs.Prelude.{◌≡◌, MatchResult, ◌++◌, Some, codes, decimal};
ghost use Rattle.channels.specs.Bytes.{channel_byte, NamesNone};

use crate::channel::Channel;
use std::error::Error;
use std::fmt;

// A byte that names no channel; of a type of its own, since a caller tells it from a byte that names no kind.
#[derive(Clone, Copy, Debug, PartialEq, Eq)]
pub struct UnknownChannel(pub u8);

impl From<Channel> for u8 {
    ghost from_gives = { λ channel byte. byte ≡ channel_byte channel };

    fn from(channel: Channel) -> u8 {
        match channel {
            Channel::Bench => 0,
            Channel::Bcch => 1,
            Channel::Data24 => 2,
            Channel::Data96 => 3,
        }
    }
}

impl TryFrom<u8> for Channel {
    type Error = UnknownChannel;

    ghost try_from_gives = { λ byte r. MatchResult r (λ channel. channel_byte channel ≡ byte) (λ e. (e.0 ≡ byte) × NamesNone byte) };

    fn try_from(byte: u8) -> Result<Channel, UnknownChannel> {
        match byte {
            0 => Ok(Channel::Bench),
            1 => Ok(Channel::Bcch),
            2 => Ok(Channel::Data24),
            3 => Ok(Channel::Data96),
            _ => Err(UnknownChannel(byte)),
        }
    }
}

impl fmt::Display for UnknownChannel {
    ghost output = { λ e. Some (codes "no channel has the byte " ++ decimal e.0) };

    fn fmt<W: fmt::Write>(&self, f: &mut fmt::Formatter<W>) -> fmt::Result {
        write!(f, "no channel has the byte {}", self.0)
    }
}

impl Error for UnknownChannel {}
