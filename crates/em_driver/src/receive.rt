//! Packets that the adapter received.
ghost use Rattle.std.specs.Prelude.{◌≡◌, ◌<◌, ◌≤◌, ◌+◌, IfErr, IfOk, OnOk};
ghost use Rattle.em_driver.specs.Receive as spec;
ghost use Rattle.em_driver.specs.Receive.{Leaves, StopsAt, Takes, TakesOrNot};
ghost use Rattle.em_turn.specs.Planned.{lists};

use crate::bus::Bus;
use crate::descriptor::{STATUS, is_done, packet_length};
use crate::driver::E1000;
use crate::layout::{BUFFER_OCTETS, DESCRIPTOR_OCTETS};
use crate::outcome::{Cause, Stopped, cause_of};
use crate::packet::packet_of;
use em_regs::Reg;
use std::collections::VecDeque;

impl<B: Bus> E1000<B> {
    /// Takes the packet of descriptor `index` to the back of `buffer`, where there is one.
    pub(crate) fn receive_packet(
        &mut self,
        index: u32,
        buffer: &mut VecDeque<Vec<u8>>,
    ) -> Result<bool, Cause>
        requires { index < self.old.layout.rx_count }
        ensures ok { IfOk result (λ taken. TakesOrNot taken self.old.layout index (B.world self.old.bus)
            (B.world self.new.bus) (lists buffer.old.items) (lists buffer.new.items)) }
        ensures err { IfErr result (λ cause. StopsAt cause self.old.layout index (B.world self.old.bus)
            (B.world self.new.bus) (lists buffer.old.items) (lists buffer.new.items)) }
        ensures layout { self.new.layout ≡ self.old.layout }
    {
        let address = self.layout.rx().descriptor(index);
        let mut descriptor = [0; DESCRIPTOR_OCTETS as usize];
        let Ok(()) = self.bus.peek(address, &mut descriptor) else {
            return Err(Cause::Broken);
        };
        if !is_done(&descriptor) {
            return Ok(false);
        }
        let Some(length) = packet_length(&descriptor) else {
            return Err(Cause::Broken);
        };
        match self.take_packet(index, length, buffer) {
            Ok(()) => Ok(true),
            Err(cause) => Err(cause),
        }
    }

    /// Takes the packet of `length` octets of descriptor `index`, and gives the descriptor back.
    fn take_packet(
        &mut self,
        index: u32,
        length: u16,
        buffer: &mut VecDeque<Vec<u8>>,
    ) -> Result<(), Cause>
        requires { index < self.old.layout.rx_count }
        ensures ok { OnOk result (Takes self.old.layout index length (B.world self.old.bus)
            (B.world self.new.bus) (lists buffer.old.items) (lists buffer.new.items)) }
        ensures err { IfErr result (λ cause. Leaves cause self.old.layout index length (B.world self.old.bus)
            (B.world self.new.bus) (lists buffer.old.items) (lists buffer.new.items)) }
        ensures layout { self.new.layout ≡ self.old.layout }
    {
        let Ok(mut packet) = packet_of(self.alloc, length) else {
            return Err(Cause::Memory);
        };
        let Ok(()) = buffer.reserve(1) else {
            return Err(Cause::Memory);
        };
        let address = self.layout.rx().buffer(index);
        let Ok(()) = self.bus.peek(address, packet.as_mut_slice()) else {
            return Err(Cause::Broken);
        };
        let status = self.layout.rx().descriptor(index) + STATUS as u64;
        if let Err(refusal) = self.bus.poke(status, &[0]) {
            return Err(cause_of(refusal));
        }
        self.set(Reg::Rdt, index);
        buffer.push_back_reserved(packet);
        Ok(())
    }
}

/// A call that stopped after `count` packets.
pub(crate) fn stop_after(count: u32, cause: Cause) -> Stopped
    requires { count ≤ 65536 }
    ensures { result ≡ spec.stop_after count cause }
{
    Stopped {
        count,
        events: 1 + 2 * count,
        cause,
    }
}
