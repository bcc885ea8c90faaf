// One way of decoding a channel's bursts, as it stands before each answer.
use crate::condition::Condition;
use std::fmt;

#[derive(Clone, Copy)]
pub(crate) struct Trial<'a> {
    pub(crate) channel: &'a str,
    pub(crate) kind: &'a str,
    pub(crate) condition: Condition,
}

impl<'a> fmt::Display for Trial<'a> {
    fn fmt<W: fmt::Write>(&self, f: &mut fmt::Formatter<W>) -> fmt::Result {
        let Trial {
            channel,
            kind,
            condition,
        } = *self;
        write!(f, "{channel} {kind} {condition}")
    }
}
