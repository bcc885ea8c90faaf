// The command line: the channel, and the kind of cost that a recording is to be heard with.
use crate::form::Form;
use crate::names::{CHANNELS, KINDS, channel_named, kind_named};
use anyhow::Context;
use channels::channel::Channel;
use clap::{Arg, ArgMatches, Command};
use std::alloc::{AllocError, Global};

#[derive(Clone, Copy)]
pub(crate) struct Request {
    pub(crate) channel: Channel,
    pub(crate) form: Form,
}

pub(crate) fn command<'a>(heap: Global) -> Result<Command<'a>, AllocError> {
    let channels: &'a [&'a str] = &CHANNELS;
    let kinds: &'a [&'a str] = &KINDS;
    let recording = Arg::new(heap, "recording")
        .long("recording")
        .value_name("KIND")
        .value_parser(kinds)
        .help("Write a recording for readburst, of clean samples of this kind");
    let channel = Arg::new(heap, "CHANNEL")
        .required(true)
        .value_parser(channels)
        .help("The channel to send on");
    Command::new(heap, "sendburst")
        .about(
            "Sends the messages on standard input, one a line in figures 0 and 1, and prints the burst of each",
        )
        .arg(recording)?
        .arg(channel)
}

// What the words ask for. The command has held the names against its lists.
pub(crate) fn read_request(matches: &ArgMatches<'_>) -> anyhow::Result<Request> {
    let channel = matches
        .get_str("CHANNEL")
        .and_then(channel_named)
        .context("no channel has that name")?;
    let form = matches
        .get_str("recording")
        .and_then(kind_named)
        .map_or(Form::Figures, Form::Recording);
    Ok(Request { channel, form })
}
