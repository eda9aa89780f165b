//! Where the frames of a capture arrive in a log.
//!
//! docs/traces.md has the rule.

use crate::clock::Moment;
use crate::shown::Address;
use crate::survey::{Place, Sending, Survey, Tells};
use em_pcap::Packet;
use std::alloc::{AllocError, Global};

/// Why a frame arrives where it does.
#[derive(Clone, Copy)]
pub enum Why {
    /// Its time says so.
    Time(Moment),
    /// Its time lies before reads of ICR that tell of no frame: it came before the next that does.
    Later(Moment),
    /// The read of ICR behind it tells of a frame, and no frame before it is that one.
    Cause,
    /// `--at` says so.
    Asked,
    /// Nothing says so.
    Nothing,
}

/// A frame that arrives.
#[derive(Clone, Copy)]
pub struct Arrival<'a> {
    pub packet: Packet<'a>,
    /// Which of the capture's frames it is, from 1 on.
    pub number: u64,
    /// The place where it arrives.
    place: usize,
    /// The line before which it arrives; none behind the last one.
    pub line: Option<u64>,
    pub why: Why,
    /// Whether the receiver is enabled there.
    pub received: bool,
}

/// A clock: a frame that was sent, when it was captured, and when the log says that it was sent.
#[derive(Clone, Copy)]
struct Anchor {
    number: u64,
    captured: u64,
    moment: Moment,
}

/// The frames that arrive, and what was seen of the others.
#[derive(Drop)]
pub struct Arrivals<'a> {
    pub arrivals: Vec<Arrival<'a>>,
    pub seen: Seen,
}

/// What was seen of the frames that the adapter sent.
#[derive(Clone, Copy)]
pub struct Seen {
    /// How many are the adapter's own, which it sent.
    pub own: u64,
    /// How many writes of TDT send.
    pub sendings: u64,
    /// How many descriptors they give.
    pub descriptors: u64,
    /// Whether the times of log and capture were joined, or need not be.
    pub has_clock: bool,
}

/// The frames of a capture that arrive, each where the rule says, or all before the line `at`.
pub fn arrivals_in<'a>(
    alloc: Global,
    survey: &Survey,
    address: Option<Address>,
    at: Option<u64>,
    packets: &[Packet<'a>],
) -> Result<Arrivals<'a>, AllocError> {
    let anchors = anchors_in(alloc, survey, address, packets)?;
    let mut arrivals = Arrivals {
        arrivals: Vec::new(alloc),
        seen: seen_in(survey, at.is_some() || !anchors.is_empty()),
    };
    let mut next = 0usize;
    let mut number = 0u64;
    for packet in packets {
        number = number.saturating_add(1);
        if is_own(packet, address) {
            arrivals.seen.own = arrivals.seen.own.saturating_add(1);
            continue;
        }
        let last = last_place(&arrivals.arrivals);
        let moment = moment_of(anchors.as_slice(), number, packet.time);
        let (found, why) = found_place(survey, at, moment, &mut next, last);
        if let Why::Time(_) = why {
            pull_back(survey, &mut arrivals.arrivals, found);
        }
        let place = found.max(last_place(&arrivals.arrivals));
        arrivals.arrivals.push(Arrival {
            packet: *packet,
            number,
            place,
            line: line_of(survey, at, place),
            why,
            received: is_open(survey, place),
        })?;
    }
    Ok(arrivals)
}

/// What is seen of the frames that were sent, of which none is counted yet.
fn seen_in(survey: &Survey, has_clock: bool) -> Seen {
    Seen {
        own: 0,
        sendings: survey.sendings.len() as u64,
        descriptors: descriptors_of(survey),
        has_clock,
    }
}

/// Where a frame arrives, before it is looked at what those before it do; and why.
fn found_place(
    survey: &Survey,
    at: Option<u64>,
    moment: Option<Moment>,
    next: &mut usize,
    last: usize,
) -> (usize, Why) {
    match (at, moment) {
        (Some(line), _) => (place_of(survey, line), Why::Asked),
        (None, Some(moment)) => by_time(survey, next, moment),
        (None, None) => by_cause(survey, next, last),
    }
}

/// The line of a place, or the one that was asked for, where the log has it.
fn line_of(survey: &Survey, at: Option<u64>, index: usize) -> Option<u64> {
    match at {
        Some(line) if line <= survey.lines => Some(line),
        Some(_) => None,
        None => Some(survey.places.get(index)?.line),
    }
}

/// The first place that is not before a line.
fn place_of(survey: &Survey, line: u64) -> usize {
    survey
        .places
        .as_slice()
        .partition_point(|place| place.line < line)
}

/// Where the last of these frames arrives.
fn last_place(arrivals: &Vec<Arrival<'_>>) -> usize {
    match arrivals.last() {
        Some(arrival) => arrival.place,
        None => 0,
    }
}

/// Lets the last of these frames, which were only guessed to come behind a place, arrive there, as the next one does.
fn pull_back(survey: &Survey, arrivals: &mut Vec<Arrival<'_>>, place: usize) {
    let count = arrivals.len();
    for back in 1..=count {
        if let Some(arrival) = arrivals.get_mut(count - back) {
            let is_guessed = matches!(arrival.why, Why::Later(_));
            if !is_guessed || arrival.place <= place {
                return;
            }
            arrival.place = place;
            arrival.line = line_of(survey, None, place);
            arrival.received = is_open(survey, place);
        }
    }
}

/// Whether the adapter sent a frame: its source is the adapter's address.
fn is_own(packet: &Packet<'_>, address: Option<Address>) -> bool {
    match &packet.header {
        Some(header) => is_from(header, address),
        None => is_from(packet.octets, address),
    }
}

/// Whether the frame that begins with these octets has this source.
fn is_from(octets: &[u8], address: Option<Address>) -> bool {
    match (octets, address) {
        ([_, _, _, _, _, _, a, b, c, d, e, f, ..], Some(address)) => {
            [*a, *b, *c, *d, *e, *f] == address
        }
        _ => false,
    }
}

fn descriptors_of(survey: &Survey) -> u64 {
    let mut descriptors = 0u64;
    for sending in survey.sendings.iter() {
        descriptors = descriptors.saturating_add(u64::from(sending.descriptors));
    }
    descriptors
}

/// The frames that were sent, each with the write of TDT that sent it: one for each descriptor, or for each write,
/// where there are so many of them; else none.
fn anchors_in(
    alloc: Global,
    survey: &Survey,
    address: Option<Address>,
    packets: &[Packet<'_>],
) -> Result<Vec<Anchor>, AllocError> {
    let mut own = 0u64;
    for packet in packets {
        if is_own(packet, address) {
            own = own.saturating_add(1);
        }
    }
    let by_descriptor = own == descriptors_of(survey);
    let mut anchors = Vec::new(alloc);
    if !by_descriptor && own != survey.sendings.len() as u64 {
        return Ok(anchors);
    }
    let mut sent = Sent {
        sendings: survey.sendings.as_slice(),
        index: 0,
        left: 0,
    };
    let mut number = 0u64;
    for packet in packets {
        number = number.saturating_add(1);
        if is_own(packet, address) {
            let moment = sent.next(by_descriptor);
            if let (Some(captured), Some(moment)) = (packet.time, moment) {
                anchors.push(Anchor {
                    number,
                    captured,
                    moment,
                })?;
            }
        }
    }
    Ok(anchors)
}

/// The writes that send, frame by frame.
#[derive(Drop)]
struct Sent<'a> {
    sendings: &'a [Sending],
    index: usize,
    /// How many descriptors of the last one are left.
    left: u32,
}

impl Sent<'_> {
    /// When the next frame was sent: by the next descriptor, or by the next write.
    fn next(&mut self, by_descriptor: bool) -> Option<Moment> {
        if by_descriptor && self.left > 0 {
            self.left -= 1;
            return self.sendings.get(self.index.saturating_sub(1))?.moment;
        }
        let sending = self.sendings.get(self.index)?;
        self.index = self.index.saturating_add(1);
        self.left = sending.descriptors.saturating_sub(1);
        sending.moment
    }
}

/// When a frame was captured by the log's clock: as long behind the write of the frame that was sent last before it,
/// as it was captured behind that frame; before the first one that was sent, as long before that.
fn moment_of(anchors: &[Anchor], number: u64, time: Option<u64>) -> Option<Moment> {
    let time = time?;
    let behind = anchors.partition_point(|anchor| anchor.number < number);
    let anchor = anchors.get(behind.saturating_sub(1))?;
    Some(anchor.moment.moved(anchor.captured, time))
}

/// The place of a frame by its time; `next` is the first that can be its moment's.
fn by_time(survey: &Survey, next: &mut usize, moment: Moment) -> (usize, Why) {
    let places = survey.places.as_slice();
    let at = first_behind(places, *next, moment);
    *next = at;
    let (arrived, quiet) = match places.get(at) {
        Some(place) => (place.arrived, place.quiet),
        None => (places.len(), places.len()),
    };
    if arrived < places.len() && quiet < arrived {
        (before_read(survey, at, arrived), Why::Later(moment))
    } else {
        (first_open(survey, at, arrived), Why::Time(moment))
    }
}

/// From a place on, the first whose access is not before the moment.
fn first_behind(places: &[Place], from: usize, moment: Moment) -> usize {
    for index in from..places.len() {
        if let Some(place) = places.get(index) {
            if place.moment.is_some_and(|logged| logged.0 >= moment.0) {
                return index;
            }
        }
    }
    places.len()
}

/// The place of a frame by reads of ICR: each that tells of a frame is for one more. `next` is the first that can be
/// its read, and `last` where the frame before it arrives.
fn by_cause(survey: &Survey, next: &mut usize, last: usize) -> (usize, Why) {
    let count = survey.places.len();
    let arrived = match survey.places.get(*next) {
        Some(place) => place.arrived,
        None => count,
    };
    *next = arrived.saturating_add(1).min(count);
    if arrived < count {
        (before_read(survey, last, arrived), Why::Cause)
    } else {
        (last_open(survey, last, count), Why::Nothing)
    }
}

/// Whether the receiver is enabled at a place, or behind the last one.
fn is_open(survey: &Survey, index: usize) -> bool {
    match survey.places.get(index) {
        Some(place) => place.receives,
        None => survey.shown.receives,
    }
}

/// The first place of these where the receiver is enabled, or the first.
fn first_open(survey: &Survey, first: usize, last: usize) -> usize {
    let open = match survey.places.get(first) {
        Some(place) => place.open,
        None => first,
    };
    if open <= last && is_open(survey, open) {
        open
    } else {
        first
    }
}

/// The place right before a read of ICR that tells of a frame; or where the receiver is disabled there, the last of
/// these places where it is enabled and that lies behind the read of ICR before, if there is one.
fn before_read(survey: &Survey, first: usize, read: usize) -> usize {
    last_open(survey, behind_quiet(survey, first, read), read)
}

/// The last of these places where the receiver is enabled, or the last.
fn last_open(survey: &Survey, first: usize, last: usize) -> usize {
    if is_open(survey, last) {
        return last;
    }
    for back in 1..=last.saturating_sub(first) {
        let index = last.saturating_sub(back);
        if is_open(survey, index) {
            return index;
        }
    }
    last
}

/// The first of these places with no access between it and the last that tells of no frame.
fn behind_quiet(survey: &Survey, first: usize, last: usize) -> usize {
    if is_open(survey, last) {
        return last;
    }
    for back in 1..=last.saturating_sub(first) {
        let index = last.saturating_sub(back);
        if let Some(place) = survey.places.get(index) {
            if place.tells == Tells::Quiet {
                return index.saturating_add(1);
            }
        }
    }
    first
}
