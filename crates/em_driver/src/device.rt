//! What a driver does for its caller.
ghost use Rattle.std.specs.Prelude.{◌≡◌, [], codes};
ghost use Rattle.em_driver.specs.Course.{Follows};
ghost use Rattle.em_driver.specs.Calls.{get_link_speed, get_mac_addr, read_stats, reset_stats, set_mac_addr};
ghost use Rattle.em_driver.specs.Order.{InOrder, IsUndisturbed, Receives, Transmits};
ghost use Rattle.em_driver.specs.Outcome.{events_of};
ghost use Rattle.em_driver.specs.Receive.{rx_batch};
ghost use Rattle.em_turn.specs.Planned.{lists};
ghost use Rattle.em_driver.specs.Transmit.{tx_batch};

use crate::bus::Bus;
use crate::driver::E1000;
use crate::link::speed_of;
use crate::outcome::{Batch, Cause, Stopped};
use crate::receive::stop_after;
use crate::stats::{DeviceStats, octets, sum};
use crate::transmit::{free_descriptors, halt_after};
use bitflags::Flags;
use byteorder::{ByteOrder, LittleEndian};
use em_regs::{Rah, Reg, following};
use std::collections::VecDeque;

/// The most packets that one call takes.
const MOST_PACKETS: usize = 65536;

/// The calls of a polled driver, by the names of ixy.rs.
pub trait IxyDevice {
    ghost use Rattle.em_driver.specs.World.{World};
    ghost use Rattle.em_driver.specs.declared.layout.Layout.{Layout};

    ghost world: { Self → World };

    ghost layout: { Self → Layout };

    /// The name of the device that the driver is for.
    fn get_driver_name(&self) -> &str
        ensures { result.now ≡ codes "82540em" };

    /// The Ethernet address that the device receives by: 2 events.
    fn get_mac_addr(&mut self) -> [u8; 6]
        ensures course { Follows (world self.old) get_mac_addr 2 result (world self.new) }
        ensures order { IsUndisturbed (layout self.old) (world self.old)
            → InOrder (layout self.old) (world self.old) (world self.new) [] [] }
        ensures layout { layout self.new ≡ layout self.old };

    /// Makes it receive by this Ethernet address: 2 events.
    fn set_mac_addr(&mut self, address: [u8; 6])
        ensures course { Follows (world self.old) (set_mac_addr address) 2 tt (world self.new) }
        ensures order { IsUndisturbed (layout self.old) (world self.old)
            → InOrder (layout self.old) (world self.old) (world self.new) [] [] }
        ensures layout { layout self.new ≡ layout self.old };

    /// Takes at most `n` received packets, in order, to the back of `buffer`; `queue` is 0. One call
    /// takes at most 65,536. With each packet there are 2 events, and 1 before them.
    ///
    /// # Errors
    ///
    /// Queue, where the number of the queue is not 0; Memory, where a growth was refused; Broken, where
    /// a descriptor or a register is not as a driver keeps it. The packets before it are in `buffer`.
    fn rx_batch(
        &mut self,
        queue: u16,
        buffer: &mut VecDeque<Vec<u8>>,
        n: usize,
    ) -> Result<Batch, Stopped>
        ensures course { Follows (world self.old) (rx_batch (layout self.old) queue n (lists buffer.old.items))
            (events_of result) (lists buffer.new.items, result) (world self.new) }
        ensures order { IsUndisturbed (layout self.old) (world self.old)
            → Receives (layout self.old) (world self.old) (world self.new) (lists buffer.old.items)
            (lists buffer.new.items, result) }
        ensures layout { layout self.new ≡ layout self.old };

    /// Takes packets from the front of `buffer` to the device, while descriptors are free; `queue` is
    /// 0. With each packet there are 3 events, and 2 before them.
    ///
    /// # Errors
    ///
    /// Queue, where the number of the queue is not 0; PacketLength, where the first packet that is left
    /// does not have 14 to 1,518 octets; Memory, where a growth was refused; Broken, where a register is
    /// not as a driver keeps it. The packet that stopped the call and those behind it stay in `buffer`.
    fn tx_batch(&mut self, queue: u16, buffer: &mut VecDeque<Vec<u8>>) -> Result<Batch, Stopped>
        ensures course { Follows (world self.old) (tx_batch (layout self.old) queue (lists buffer.old.items))
            (events_of result) (lists buffer.new.items, result) (world self.new) }
        ensures order { IsUndisturbed (layout self.old) (world self.old)
            → Transmits (layout self.old) (world self.old) (world self.new) (lists buffer.old.items)
            (lists buffer.new.items, result) }
        ensures layout { layout self.new ≡ layout self.old };

    /// Adds the packets and octets since the last such call to `stats`: 6 events. Sums stop at their
    /// greatest value.
    fn read_stats(&mut self, stats: &mut DeviceStats)
        ensures course { Follows (world self.old) (read_stats stats.old) 6 stats.new (world self.new) }
        ensures order { IsUndisturbed (layout self.old) (world self.old)
            → InOrder (layout self.old) (world self.old) (world self.new) [] [] }
        ensures layout { layout self.new ≡ layout self.old };

    /// Begins the counts of packets and octets anew: 6 events.
    fn reset_stats(&mut self)
        ensures course { Follows (world self.old) reset_stats 6 tt (world self.new) }
        ensures order { IsUndisturbed (layout self.old) (world self.old)
            → InOrder (layout self.old) (world self.old) (world self.new) [] [] }
        ensures layout { layout self.new ≡ layout self.old };

    /// The speed of the link in Mb/s, 0 where it is down: 1 event.
    fn get_link_speed(&mut self) -> u16
        ensures course { Follows (world self.old) get_link_speed 1 result (world self.new) }
        ensures order { IsUndisturbed (layout self.old) (world self.old)
            → InOrder (layout self.old) (world self.old) (world self.new) [] [] }
        ensures layout { layout self.new ≡ layout self.old };
}

impl<B: Bus> IxyDevice for E1000<B> {
    ghost world = { λ driver. B.world driver.bus };

    ghost layout = { λ driver. driver.layout };

    fn get_driver_name(&self) -> &str {
        "82540em"
    }

    fn get_mac_addr(&mut self) -> [u8; 6] {
        let low = self.bus.read(Reg::Ral(0)).to_le_bytes();
        let high = self.bus.read(Reg::Rah(0)).to_le_bytes();
        [low[0], low[1], low[2], low[3], high[0], high[1]]
    }

    fn set_mac_addr(&mut self, address: [u8; 6]) {
        let low = LittleEndian::read_u32(&address);
        let high = LittleEndian::read_u16(&address[4..]);
        self.set(Reg::Ral(0), low);
        self.set(Reg::Rah(0), u32::from(high) + Rah::AV.bits());
    }

    fn rx_batch(
        &mut self,
        queue: u16,
        buffer: &mut VecDeque<Vec<u8>>,
        n: usize,
    ) -> Result<Batch, Stopped> {
        if queue != 0 {
            return Err(Stopped {
                count: 0,
                events: 0,
                cause: Cause::Queue,
            });
        }
        if n == 0 {
            return Ok(Batch {
                count: 0,
                events: 0,
            });
        }
        let tail = self.bus.read(Reg::Rdt);
        let ring = self.layout.rx_count;
        if tail >= ring {
            return Err(stop_after(0, Cause::Broken));
        }
        let mut index = following(tail, ring);
        let mut count: u32 = 0;
        for i in 0..n.min(MOST_PACKETS) {
            match self.receive_packet(index, buffer) {
                Ok(true) => {
                    let next = following(index, ring);
                    index = next;
                    count += 1;
                }
                Ok(false) => break,
                Err(cause) => return Err(stop_after(count, cause)),
            }
        }
        Ok(Batch {
            count,
            events: 1 + 2 * count,
        })
    }

    fn tx_batch(&mut self, queue: u16, buffer: &mut VecDeque<Vec<u8>>) -> Result<Batch, Stopped> {
        if queue != 0 {
            return Err(Stopped {
                count: 0,
                events: 0,
                cause: Cause::Queue,
            });
        }
        let Some(_) = buffer.front() else {
            return Ok(Batch {
                count: 0,
                events: 0,
            });
        };
        let tail = self.bus.read(Reg::Tdt);
        let head = self.bus.read(Reg::Tdh);
        let ring = self.layout.tx_count;
        let Some(free) = free_descriptors(ring, head, tail) else {
            return Err(halt_after(0, 0, Cause::Broken));
        };
        let mut index = tail;
        let mut count: u32 = 0;
        for i in 0..free {
            match self.transmit_front(index, count, buffer) {
                Ok(true) => {
                    let next = following(index, ring);
                    index = next;
                    count += 1;
                }
                Ok(false) => break,
                Err(stopped) => return Err(stopped),
            }
        }
        Ok(Batch {
            count,
            events: 2 + 3 * count,
        })
    }

    fn read_stats(&mut self, stats: &mut DeviceStats) {
        let rx_pkts = self.bus.read(Reg::Gprc);
        let tx_pkts = self.bus.read(Reg::Gptc);
        let rx_low = self.bus.read(Reg::Gorcl);
        let rx_high = self.bus.read(Reg::Gorch);
        let tx_low = self.bus.read(Reg::Gotcl);
        let tx_high = self.bus.read(Reg::Gotch);
        stats.rx_pkts = sum(stats.rx_pkts, u64::from(rx_pkts));
        stats.tx_pkts = sum(stats.tx_pkts, u64::from(tx_pkts));
        stats.rx_bytes = sum(stats.rx_bytes, octets(rx_low, rx_high));
        stats.tx_bytes = sum(stats.tx_bytes, octets(tx_low, tx_high));
    }

    fn reset_stats(&mut self) {
        let _ = self.bus.read(Reg::Gprc);
        let _ = self.bus.read(Reg::Gptc);
        let _ = self.bus.read(Reg::Gorcl);
        let _ = self.bus.read(Reg::Gorch);
        let _ = self.bus.read(Reg::Gotcl);
        let _ = self.bus.read(Reg::Gotch);
    }

    fn get_link_speed(&mut self) -> u16 {
        speed_of(self.bus.read(Reg::Status))
    }
}
