//! Classic capture files: a header of 24 octets, and records.
ghost use Rattle.std.specs.Prelude.{◌≡◌, ◌+◌, ◌≤◌, length};
ghost use Rattle.em_pcap.specs.Classic.{magic_of, header_step, record_step, is_beyond};
ghost use Rattle.em_pcap.specs.Step.{IsWithin};

use crate::fault::FaultKind;
use crate::form::{Form, Found, Header, Step, Unit};
use crate::link::{frame_step, link_in_network};
use crate::order::Order;

/// The magic number of a file whose times are in microseconds.
const MICROSECONDS: u32 = 0xA1B2_C3D4;

/// That of a file whose times are in nanoseconds.
const NANOSECONDS: u32 = 0xA1B2_3C4D;

/// The octets of a file's header.
const FILE_HEADER: usize = 24;

/// The octets of a record's header.
const RECORD_HEADER: usize = 16;

/// Where the fields of a file's header lie that are read.
const MAGIC_NUMBER: usize = 0;

const VERSION_MAJOR: usize = 4;

const SNAPLEN: usize = 16;

const NETWORK: usize = 20;

/// Where the fields of a record's header lie.
const TS_SEC: usize = 0;

const TS_FRACTION: usize = 4;

const INCL_LEN: usize = 8;

const ORIG_LEN: usize = 12;

/// The major version that is known.
const VERSION: u16 = 2;

/// The nanoseconds of a second.
pub(crate) const SECOND: u64 = 1_000_000_000;

/// What a magic number at the front says: the order of a classic file, and the unit of its times.
pub(crate) fn magic_of(octets: &[u8]) -> Option<(Order, Unit)>
    requires { 4 ≤ length octets.now }
    ensures { result ≡ magic_of octets.now }
{
    let little = Order::Little.u32_at(octets, MAGIC_NUMBER);
    let big = Order::Big.u32_at(octets, MAGIC_NUMBER);
    if little == MICROSECONDS {
        Some((Order::Little, Unit::Microseconds))
    } else if little == NANOSECONDS {
        Some((Order::Little, Unit::Nanoseconds))
    } else if big == MICROSECONDS {
        Some((Order::Big, Unit::Microseconds))
    } else if big == NANOSECONDS {
        Some((Order::Big, Unit::Nanoseconds))
    } else {
        None
    }
}

/// The header of a classic file.
pub(crate) fn header_step(own: [u8; 6], order: Order, unit: Unit, octets: &[u8]) -> Step
    ensures step { result ≡ header_step own order unit octets.now }
    ensures within { IsWithin (length octets.now) result }
{
    if octets.len() < FILE_HEADER {
        return Step::Stops(FaultKind::CutShort);
    }
    if order.u16_at(octets, VERSION_MAJOR) != VERSION {
        return Step::Stops(FaultKind::Version);
    }
    let snap = order.u32_at(octets, SNAPLEN);
    let Some(link) = link_in_network(own, order.u32_at(octets, NETWORK)) else {
        return Step::Stops(FaultKind::LinkType);
    };
    let header = Header {
        order,
        unit,
        snap,
        link,
    };
    Step::Opens(FILE_HEADER, Form::Classic(header))
}

/// A record of a classic file, or its end.
#[inline(always)]
pub(crate) fn record_step(header: Header, octets: &[u8]) -> Step
    ensures step { result ≡ record_step header octets.now }
    ensures within { IsWithin (length octets.now) result }
{
    if octets.is_empty() {
        return Step::Ends;
    }
    if octets.len() < RECORD_HEADER {
        return Step::Stops(FaultKind::CutShort);
    }
    let Header {
        order,
        unit,
        snap,
        link,
    } = header;
    let seconds = u64::from(order.u32_at(octets, TS_SEC));
    let within = u64::from(order.u32_at(octets, TS_FRACTION));
    let included = order.u32_at(octets, INCL_LEN);
    let original = order.u32_at(octets, ORIG_LEN);
    if is_beyond(snap, included) {
        return Step::Stops(FaultKind::CapturedLength);
    }
    let captured = included as usize;
    if octets.len() < RECORD_HEADER + captured {
        return Step::Stops(FaultKind::CutShort);
    }
    let found = Found {
        len: RECORD_HEADER + captured,
        at: RECORD_HEADER,
        captured,
        original,
        time: Some(seconds * SECOND + within * unit.nanoseconds()),
        header: None,
    };
    frame_step(link, octets, found)
}

/// Whether so many captured octets are more than a snap length allows, where 0 allows any number.
#[inline(always)]
pub(crate) fn is_beyond(snap: u32, captured: u32) -> bool
    ensures { result ≡ is_beyond snap captured }
{
    snap != 0 && snap < captured
}
