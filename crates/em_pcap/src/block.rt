//! Blocks of pcapng files.
ghost use Rattle.std.specs.Prelude.{◌≡◌, ◌≤◌, length, IsNone};
ghost use Rattle.em_pcap.specs.Step.{IsWithin};
ghost use Rattle.em_pcap.specs.Blocks.{block_type, block_total_length, least_length, length_fault, section_order};
ghost use Rattle.em_pcap.specs.Blocks.{order_of};
ghost use Rattle.em_pcap.specs.Blocks.{section_step, body_step, block_step};

use crate::fault::FaultKind;
use crate::form::{Form, Interface, Step};
use crate::interface::interface_step;
use crate::order::Order;
use crate::packet_block::{enhanced_step, simple_step};

/// The type of a section header, in either order.
pub(crate) const SECTION_HEADER: u32 = 0x0A0D_0D0A;

const INTERFACE_DESCRIPTION: u32 = 1;

const SIMPLE_PACKET: u32 = 3;

const ENHANCED_PACKET: u32 = 6;

/// The magic number in a section header.
const BYTE_ORDER: u32 = 0x1A2B_3C4D;

/// The major version that is known.
const VERSION: u16 = 1;

/// The octets of the shortest block.
const LEAST: usize = 12;

/// The octets of a block behind all else: its length again.
pub(crate) const LENGTH_AGAIN: usize = 4;

/// Where the fields lie that every block has.
pub(crate) const BLOCK_TYPE: usize = 0;

const BLOCK_TOTAL_LENGTH: usize = 4;

/// Where those of a section header lie.
const BYTE_ORDER_MAGIC: usize = 8;

const MAJOR_VERSION: usize = 12;

/// What stands at the front of these octets, in a section of this order with these interfaces.
#[inline(always)]
pub(crate) fn block_step(
    own: [u8; 6],
    order: Order,
    interfaces: &[Interface],
    octets: &[u8],
) -> Step
    ensures step { result ≡ block_step own order interfaces.now octets.now }
    ensures within { IsWithin (length octets.now) result }
{
    if octets.is_empty() {
        return Step::Ends;
    }
    if octets.len() < LEAST {
        return Step::Stops(FaultKind::CutShort);
    }
    let Some(order) = order_of(order, octets) else {
        return Step::Stops(FaultKind::Magic);
    };
    match length_fault(order, octets) {
        Some(fault) => Step::Stops(fault),
        None => body_step(own, order, interfaces, octets),
    }
}

/// In which order a block in a section of this order was written.
#[inline(always)]
fn order_of(order: Order, block: &[u8]) -> Option<Order>
    requires { 12 ≤ length block.now }
    ensures { result ≡ order_of order block.now }
{
    if Order::Little.u32_at(block, BLOCK_TYPE) == SECTION_HEADER {
        section_order(block)
    } else {
        Some(order)
    }
}

/// In which order a section header says that its section was written.
fn section_order(block: &[u8]) -> Option<Order>
    requires { 12 ≤ length block.now }
    ensures { result ≡ section_order block.now }
{
    if Order::Little.u32_at(block, BYTE_ORDER_MAGIC) == BYTE_ORDER {
        Some(Order::Little)
    } else if Order::Big.u32_at(block, BYTE_ORDER_MAGIC) == BYTE_ORDER {
        Some(Order::Big)
    } else {
        None
    }
}

/// What is wrong with the length of a block, if anything.
#[inline(always)]
fn length_fault(order: Order, octets: &[u8]) -> Option<FaultKind>
    requires { 12 ≤ length octets.now }
    ensures fault { result ≡ length_fault order octets.now }
    ensures fields { IsNone result → least_length (block_type order octets.now) ≤ block_total_length order octets.now }
    ensures whole { IsNone result → block_total_length order octets.now ≤ length octets.now }
{
    let kind = order.u32_at(octets, BLOCK_TYPE);
    let len = order.u32_at(octets, BLOCK_TOTAL_LENGTH) as usize;
    if len < least_length(kind) || len % 4 != 0 {
        return Some(FaultKind::BlockLength);
    }
    if octets.len() < len {
        return Some(FaultKind::CutShort);
    }
    if order.u32_at(octets, len - LENGTH_AGAIN) as usize != len {
        return Some(FaultKind::BlockLength);
    }
    None
}

/// The octets of a block's fields, without packet and options.
#[inline(always)]
fn least_length(kind: u32) -> usize
    ensures value { result ≡ least_length kind }
    ensures least { 12 ≤ result }
{
    match kind {
        SECTION_HEADER => 28,
        INTERFACE_DESCRIPTION => 20,
        SIMPLE_PACKET => 16,
        ENHANCED_PACKET => 32,
        _ => LEAST,
    }
}

/// What a block is whose length is right.
#[inline(always)]
#[tactic(auto, unfolding(crate::specs::Blocks::body_step))]
fn body_step(own: [u8; 6], order: Order, interfaces: &[Interface], block: &[u8]) -> Step
    requires fields { least_length (block_type order block.now) ≤ block_total_length order block.now }
    requires whole { block_total_length order block.now ≤ length block.now }
    requires head { 12 ≤ length block.now }
    ensures step { result ≡ body_step own order interfaces.now block.now }
    ensures within { IsWithin (length block.now) result }
{
    let kind = order.u32_at(block, BLOCK_TYPE);
    let len = order.u32_at(block, BLOCK_TOTAL_LENGTH) as usize;
    if kind == SECTION_HEADER {
        section_step(own, order, block, len)
    } else if kind == INTERFACE_DESCRIPTION {
        interface_step(own, order, block, len)
    } else if kind == SIMPLE_PACKET {
        simple_step(order, interfaces, block, len)
    } else if kind == ENHANCED_PACKET {
        enhanced_step(order, interfaces, block, len)
    } else {
        Step::Skips(len)
    }
}

/// A section header of so many octets.
fn section_step(own: [u8; 6], order: Order, block: &[u8], len: usize) -> Step
    requires len { len ≡ block_total_length order block.now }
    requires fields { 28 ≤ len }
    requires whole { len ≤ length block.now }
    ensures step { result ≡ section_step own order block.now }
    ensures within { IsWithin (length block.now) result }
{
    if order.u16_at(block, MAJOR_VERSION) != VERSION {
        return Step::Stops(FaultKind::Version);
    }
    Step::Opens(len, Form::Section(order, own))
}
