// What playing does, from one record of a recording to the next.
ghost use Rattle.std.specs.Prelude.{◌≡◌, ◌++◌, false, Some, IfOk, OnOk, string_bytes};
ghost use Rattle.recording.specs.Kinds.{weighing};
ghost use Rattle.recording.specs.Lines.{written};
ghost use Rattle.recording.specs.Made.{text};
ghost use Rattle.recording.specs.Playing.{rest, weighed, finished, Begun, Comes, NoCall, Opens, PlaysCalls, PlaysOn, Turns};
ghost use Rattle.recording.specs.declared.player.Player.{Player};
ghost use Rattle.records.specs.Records.{said};
ghost use Rattle.records.specs.declared.record.Kind.{Kind};
ghost use Rattle.stations.specs.Stations.{Fresh};

use super::Player;
use super::latest::Latest;
use crate::figures::Figured;
use crate::printed::{Bits, Line};
use crate::sample::Spelt;
use channels::channel::Channel;
use cost::count::Count;
use cost::float::Float;
use cost::ranked::Ranked;
use link::refusal::Refusal;
use records::read::next_record;
use records::record::{Kind, Record};
use stations::station::Station;
use std::alloc::{AllocError, Global};

impl<'a> Player<'a> {
    pub(crate) fn new(heap: Global, bytes: &'a [u8]) -> Player<'a>
        ensures { Begun bytes.now result }
    {
        Player {
            heap,
            bytes,
            at: 0,
            lines: String::new(heap),
        }
    }

    // The record that comes next while a channel is open at that kind or none is, and the place where the rest begins.
    fn next(&self, opened: Option<Kind>) -> Option<(Record<'a>, usize)>
        ensures { Comes opened self.now result }
    {
        let (record, rest) = next_record(opened, &self.bytes[self.at..])?;
        Some((record, self.bytes.len() - rest.len()))
    }

    // Reads the opening that comes next, if one does.
    pub(crate) fn opening(&mut self) -> Option<(Channel, Kind)>
        ensures { Opens self.old result self.new }
    {
        let Some((Record::Open { channel, kind }, after)) = self.next(None) else {
            return None;
        };
        self.at = after;
        Some((channel, kind))
    }

    // Plays the calls that follow an opening.
    pub(crate) fn play_opened(
        &mut self,
        channel: Channel,
        kind: Kind,
        latest: &mut Latest,
    ) -> Result<(), AllocError>
        ensures { OnOk result (PlaysCalls (weighing kind) channel self.old self.new) }
    {
        match kind {
            Kind::Count => self.play_calls::<Count>(channel, &mut latest.count),
            Kind::Ranked => self.play_calls::<Ranked>(channel, &mut latest.ranked),
            Kind::Float => self.play_calls::<Float>(channel, &mut latest.float),
        }
    }

    fn play_calls<C: Figured>(
        &mut self,
        channel: Channel,
        latest: &mut Option<Station<C>>,
    ) -> Result<(), AllocError>
    where
        C::Sample: Spelt,
        ensures { OnOk result (PlaysCalls (weighed C.Cost C.Figured.KIND C.Sample.Spelt.spelt C.Figured.figures) channel self.old self.new) }
    {
        put::<C>(&mut self.lines, &Line::Opened(channel))?;
        self.play_on::<C>(channel, latest)
    }

    // The same once the opening's line is written. Memory is found for a receiver only where a call follows.
    fn play_on<C: Figured>(
        &mut self,
        channel: Channel,
        latest: &mut Option<Station<C>>,
    ) -> Result<(), AllocError>
    where
        C::Sample: Spelt,
        ensures { OnOk result (PlaysOn (weighed C.Cost C.Figured.KIND C.Sample.Spelt.spelt C.Figured.figures) channel self.old self.new) }
    {
        let receiver = channel.open::<C>();
        let first = self.next(Some(C::KIND));
        if !is_call(first) {
            return Ok(());
        }
        match latest {
            Some(station) => {
                station.take(receiver)?;
                self.play_at::<C>(channel, first, station)
            }
            None => {
                let mut station = Station::<C>::with(self.heap, receiver)?;
                self.play_at::<C>(channel, first, &mut station)?;
                *latest = Some(station);
                Ok(())
            }
        }
    }

    // Makes the calls that come next, at a station that has just been opened for the channel; the first has been read.
    fn play_at<C: Figured>(
        &mut self,
        channel: Channel,
        first: Option<(Record<'a>, usize)>,
        station: &mut Station<C>,
    ) -> Result<(), AllocError>
    where
        C::Sample: Spelt,
        requires fresh { Fresh C.Cost channel station.old }
        requires first { Comes (Some C.Figured.KIND) self.old first }
        ensures { OnOk result (PlaysOn (weighed C.Cost C.Figured.KIND C.Sample.Spelt.spelt C.Figured.figures) channel self.old self.new) }
    {
        let mut comes = first;
        while let Some((record, after)) = comes {
            if !answer(self.heap, station, record, &mut self.lines)? {
                break;
            }
            self.at = after;
            comes = self.next(Some(C::KIND));
        }
        Ok(())
    }

    // The lines, with that of the fault where not all has been played.
    pub(crate) fn finish(self) -> Result<String, AllocError>
        ensures { IfOk result (λ made. string_bytes made ≡ finished self.entry) }
    {
        let Player {
            bytes,
            at,
            mut lines,
            ..
        } = self;
        if at < bytes.len() {
            let fault = Refusal::BadRecord { offset: at };
            put::<Count>(&mut lines, &Line::Refused(fault))?;
        }
        Ok(lines)
    }
}

// Whether a record has been read, and it is a call.
fn is_call(read: Option<(Record<'_>, usize)>) -> bool
    ensures { (kind : Kind) (p : Player) → Comes (Some kind) p read.entry → result ≡ false → NoCall kind (rest p) }
{
    !matches!(read, None | Some((Record::Open { .. }, _)))
}

// Makes the call that the record asks for, and writes the line of its answer. An opening is no call, and the answer is false: an enum of
// the calls alone would say the records again. No method, which would have to say that the place and the bytes stay. Each arm writes
// its line, since a line that lends the message is not yet made in two arms.
fn answer<C: Figured>(
    heap: Global,
    station: &mut Station<C>,
    record: Record<'_>,
    lines: &mut String,
) -> Result<bool, AllocError>
where
    C::Sample: Spelt,
    ensures { IfOk result (λ called. Turns (weighed C.Cost C.Figured.KIND C.Sample.Spelt.spelt C.Figured.figures) (said «record».entry) station.old (string_bytes lines.old) called station.new (string_bytes lines.new)) }
{
    match record {
        Record::Open { .. } => return Ok(false),
        Record::Hear { bytes, .. } => {
            let heard = C::Sample::samples(heap, bytes)?;
            let reply = station.hear(&heard);
            let message = Bits(station.message());
            put(lines, &Line::Answered(reply, message))?;
        }
        Record::Miss => {
            let reply = station.miss();
            let message = Bits(station.message());
            put(lines, &Line::Answered(reply, message))?;
        }
        Record::Stolen => put(lines, &Line::Stolen(station.stolen()))?,
        Record::Restart => {
            station.restart();
            put::<C>(lines, &Line::Restarted)?;
        }
    }
    Ok(true)
}

// Writes the line with its end. The line is lent, since one by value is not yet covered.
fn put<C: Figured>(lines: &mut String, line: &Line<Bits<'_>, C>) -> Result<(), AllocError>
    ensures { OnOk result (string_bytes lines.new ≡ string_bytes lines.old ++ written (text C.Figured.figures line.now)) }
{
    writeln!(lines, "{line}")
}
