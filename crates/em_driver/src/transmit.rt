//! Packets to send.
ghost use Rattle.std.specs.Prelude.{◌≡◌, ◌<◌, ◌≤◌, ◌+◌, true, false, IfErr, IfOk, IfSome, OnOk, MatchOption};
ghost use Rattle.em_turn.specs.Planned.{lists};
ghost use Rattle.em_driver.specs.Transmit as spec;
ghost use Rattle.em_driver.specs.Transmit.{Halts, HaltsAt, Sends, SendsOrNot};

use crate::bus::Bus;
use crate::descriptor::of_packet;
use crate::driver::E1000;
use crate::layout::{BUFFER_OCTETS, DESCRIPTOR_OCTETS};
use crate::outcome::{Cause, Stopped, cause_of};
use em_regs::{Reg, following};
use std::collections::VecDeque;

/// The least octets of a packet, without a check sequence.
const LEAST_PACKET: usize = 14;

/// The most octets of a packet, without a check sequence.
const MOST_PACKET: usize = 1518;

impl<B: Bus> E1000<B> {
    /// Takes the first packet of `buffer` into descriptor `index`, where there is one; `count` packets
    /// went before.
    pub(crate) fn transmit_front(
        &mut self,
        index: u32,
        count: u32,
        buffer: &mut VecDeque<Vec<u8>>,
    ) -> Result<bool, Stopped>
        requires index { index < self.old.layout.tx_count }
        requires few { count ≤ 4096 }
        ensures ok { IfOk result (λ sent. SendsOrNot sent self.old.layout index count (B.world self.old.bus)
            (B.world self.new.bus) (lists buffer.old.items) (lists buffer.new.items)) }
        ensures err { IfErr result (λ stopped. HaltsAt self.old.layout index count (B.world self.old.bus)
            (B.world self.new.bus) (lists buffer.old.items) (lists buffer.new.items) stopped) }
        ensures layout { self.new.layout ≡ self.old.layout }
    {
        let Some(packet) = buffer.front() else {
            return Ok(false);
        };
        if let Err(stopped) = self.transmit_packet(index, count, packet.as_slice()) {
            return Err(stopped);
        }
        let Some(_) = buffer.pop_front() else {
            unreachable!();
        };
        Ok(true)
    }

    /// Puts a packet into descriptor `index`, and gives it to the adapter; `count` packets went before.
    fn transmit_packet(&mut self, index: u32, count: u32, packet: &[u8]) -> Result<(), Stopped>
        requires index { index < self.old.layout.tx_count }
        requires few { count ≤ 4096 }
        ensures ok { OnOk result (Sends self.old.layout index count (B.world self.old.bus) (B.world self.new.bus)
            packet.now) }
        ensures err { IfErr result (λ stopped. Halts self.old.layout index count (B.world self.old.bus)
            (B.world self.new.bus) packet.now stopped) }
        ensures layout { self.new.layout ≡ self.old.layout }
    {
        if !is_packet(packet) {
            return Err(halt_after(count, 0, Cause::PacketLength));
        }
        let address = self.layout.tx().buffer(index);
        if let Err(refusal) = self.bus.poke(address, packet) {
            return Err(halt_after(count, 0, cause_of(refusal)));
        }
        let descriptor = of_packet(address, packet.len() as u16);
        let place = self.layout.tx().descriptor(index);
        if let Err(refused) = self.bus.poke(place, &descriptor) {
            return Err(halt_after(count, 1, cause_of(refused)));
        }
        let next = following(index, self.layout.tx_count);
        self.set(Reg::Tdt, next);
        Ok(())
    }
}

/// How many descriptors are free in a ring of `count`; None where an index is outside of the ring.
pub(crate) fn free_descriptors(count: u32, head: u32, tail: u32) -> Option<u32>
    requires { count ≤ 4096 }
    ensures value { MatchOption result (spec.are_indices count head tail ≡ false) (λ free.
        (spec.are_indices count head tail ≡ true) × (free ≡ spec.free_from count head tail)) }
    ensures fits { IfSome result (λ free. (free < count) × (tail < count)) }
{
    if tail >= count || head >= count {
        return None;
    }
    if tail < head {
        Some(head - tail - 1)
    } else {
        Some(head + count - tail - 1)
    }
}

/// Whether a packet has a length that can be sent.
fn is_packet(packet: &[u8]) -> bool
    ensures { result ≡ spec.is_packet packet.now }
{
    LEAST_PACKET <= packet.len() && packet.len() <= MOST_PACKET
}

/// A call that stopped after `count` packets, and `own` events of the packet after them.
pub(crate) fn halt_after(count: u32, own: u32, cause: Cause) -> Stopped
    requires few { count ≤ 4096 }
    requires one { own ≤ 1 }
    ensures { result ≡ spec.halt_after count own cause }
{
    Stopped {
        count,
        events: 2 + 3 * count + own,
        cause,
    }
}
