//! Packet blocks of pcapng files.
ghost use Rattle.std.specs.Prelude.{◌≡◌, ◌+◌, ◌<◌, ◌≤◌, length};
ghost use Rattle.em_pcap.specs.Step.{IsWithin};
ghost use Rattle.em_pcap.specs.Blocks.{block_total_length, enhanced_in, enhanced_step, simple_step};
ghost use Rattle.em_pcap.specs.Blocks.{packet_step, snapped, time_of};

use crate::block::LENGTH_AGAIN;
use crate::fault::FaultKind;
use crate::form::{Found, Interface, Step};
use crate::link::frame_step;
use crate::order::Order;

/// Where the fields of an enhanced packet block lie, and its packet.
const INTERFACE_ID: usize = 8;

const TIMESTAMP_HIGH: usize = 12;

const TIMESTAMP_LOW: usize = 16;

const CAPTURED_PACKET_LENGTH: usize = 20;

const ORIGINAL_PACKET_LENGTH: usize = 24;

const ENHANCED_AT: usize = 28;

/// Where the field of a simple packet block lies, and its packet.
const SIMPLE_ORIGINAL_LENGTH: usize = 8;

const SIMPLE_AT: usize = 12;

/// What the upper half of a number of 64 bits counts.
const UPPER_HALF: u64 = 0x1_0000_0000;

/// An enhanced packet block of so many octets.
#[inline(always)]
pub(crate) fn enhanced_step(
    order: Order,
    interfaces: &[Interface],
    block: &[u8],
    len: usize,
) -> Step
    requires len { len ≡ block_total_length order block.now }
    requires fields { 32 ≤ len }
    requires whole { len ≤ length block.now }
    ensures step { result ≡ enhanced_step order interfaces.now block.now }
    ensures within { IsWithin (length block.now) result }
{
    let id = order.u32_at(block, INTERFACE_ID);
    match interfaces.get(id as usize).copied() {
        Some(interface) => enhanced_in(order, interface, block, len),
        None => Step::Stops(FaultKind::NoInterface),
    }
}

/// The same of this interface.
#[inline(always)]
fn enhanced_in(order: Order, interface: Interface, block: &[u8], len: usize) -> Step
    requires len { len ≡ block_total_length order block.now }
    requires fields { 32 ≤ len }
    requires whole { len ≤ length block.now }
    ensures step { result ≡ enhanced_in order block.now interface }
    ensures within { IsWithin (length block.now) result }
{
    let high = u64::from(order.u32_at(block, TIMESTAMP_HIGH));
    let low = u64::from(order.u32_at(block, TIMESTAMP_LOW));
    let captured = order.u32_at(block, CAPTURED_PACKET_LENGTH);
    let original = order.u32_at(block, ORIGINAL_PACKET_LENGTH);
    let time = time_of(interface.tick, high * UPPER_HALF + low);
    let room = len - ENHANCED_AT - LENGTH_AGAIN;
    let found = Found {
        len,
        at: ENHANCED_AT,
        captured: captured as usize,
        original,
        time,
        header: None,
    };
    packet_step(interface, room, block, found)
}

/// A simple packet block of so many octets.
pub(crate) fn simple_step(order: Order, interfaces: &[Interface], block: &[u8], len: usize) -> Step
    requires len { len ≡ block_total_length order block.now }
    requires fields { 16 ≤ len }
    requires whole { len ≤ length block.now }
    ensures step { result ≡ simple_step order interfaces.now block.now }
    ensures within { IsWithin (length block.now) result }
{
    let original = order.u32_at(block, SIMPLE_ORIGINAL_LENGTH);
    let Some(interface) = interfaces.get(0).copied() else {
        return Step::Stops(FaultKind::NoInterface);
    };
    let room = len - SIMPLE_AT - LENGTH_AGAIN;
    let found = Found {
        len,
        at: SIMPLE_AT,
        captured: snapped(interface.snap, original) as usize,
        original,
        time: None,
        header: None,
    };
    packet_step(interface, room, block, found)
}

/// A packet of an interface, of which its snap length and so much room in the block allow so many octets.
#[inline(always)]
fn packet_step(interface: Interface, room: usize, block: &[u8], found: Found) -> Step
    requires some { 0 < found.len }
    requires whole { found.len ≤ length block.now }
    requires there { found.at + room ≤ length block.now }
    ensures step { result ≡ packet_step interface room block.now found }
    ensures within { IsWithin (length block.now) result }
{
    let snap = interface.snap;
    if (snap != 0 && (snap as usize) < found.captured) || room < found.captured {
        return Step::Stops(FaultKind::CapturedLength);
    }
    frame_step(interface.link, block, found)
}

/// So many octets, or as many as a snap length allows.
fn snapped(snap: u32, original: u32) -> u32
    ensures { result ≡ snapped snap original }
{
    if snap == 0 {
        original
    } else {
        original.min(snap)
    }
}

/// So many ticks of a clock in nanoseconds, where that is known and fits.
#[inline(always)]
fn time_of(tick: Option<u64>, ticks: u64) -> Option<u64>
    ensures { result ≡ time_of tick ticks }
{
    match tick {
        Some(tick) => ticks.checked_mul(tick),
        None => None,
    }
}
