//! The parts of a start (manual, chapter on general initialization).
ghost use Rattle.std.specs.Prelude.{◌≡◌, ◌+◌, ◌*◌, ◌/◌, ◌%◌, ◌≤◌, IfOk, OnOk, IfErr};
ghost use Rattle.em_driver.specs.Start.{Performs, Gives, Stops};
ghost use Rattle.em_driver.specs.Start as parts;

use crate::bus::Bus;
use crate::descriptor::Descriptor;
use crate::layout::{BUFFER_OCTETS, DESCRIPTOR_OCTETS};
use crate::outcome::Cause;
use crate::start_access::Starting;
use bitflags::Flags;
use byteorder::{ByteOrder, LittleEndian};
use em_eeprom::Eeprom;
use em_regs::{Ctrl, Eerd, Rah, Rctl, Reg, Tctl};

/// Every interrupt cause, for IMC.
const ALL_CAUSES: u32 = 0xFFFF_FFFF;

/// How many words the EEPROM has.
const EEPROM_WORDS: u8 = 64;

/// EERD's address is in bits 15 to 8.
const EERD_ADDRESS: u32 = 0x100;

/// A number whose low half is in one word, or one register, has its high half in the next.
const WORD: u32 = 0x1_0000;

/// How many words the multicast table has.
const MTA_WORDS: u8 = 128;

/// A base address has its low 32 bits in one register and the others in the next.
const BASE_HIGH: u64 = 0x1_0000_0000;

/// TCTL.CT, the collision threshold: the manual's 16, in bits 11 to 4.
const COLLISION_THRESHOLD: u32 = 0x10 << 4;

/// TCTL.COLD, the collision distance: the manual's 64 for full duplex, in bits 21 to 12.
const COLLISION_DISTANCE: u32 = 0x40 << 12;

/// TIPG, the gaps between packets: the manual's IPGT 10, IPGR1 8 (bits 19 to 10) and IPGR2 6 (bits
/// 29 to 20).
const PACKET_GAPS: u32 = 10 + (8 << 10) + (6 << 20);

impl<B: Bus> Starting<B> {
    /// Masks all interrupts, resets the device and sets up the link: 4 events. Stops as Memory.
    pub(crate) fn global_reset(&mut self) -> Result<(), Cause>
        requires few { self.old.events ≤ 0xFFFF }
        ensures ok { OnOk result (Performs (B.world self.old.driver.bus) parts.global_reset 4
            (B.world self.new.driver.bus)) }
        ensures counted { OnOk result (self.new.events ≡ self.old.events + 4) }
        ensures err { IfErr result (λ why. Stops (B.world self.old.driver.bus) parts.global_reset self.old.events why
            (B.world self.new.driver.bus) self.new.events) }
        ensures layout { self.new.driver.layout ≡ self.old.driver.layout }
    {
        self.write(Reg::Imc, ALL_CAUSES);
        self.reset()?;
        self.write(Reg::Imc, ALL_CAUSES);
        self.write(Reg::Ctrl, Ctrl::SLU.union(Ctrl::FD).bits());
        Ok(())
    }

    /// Reads a word of the EEPROM: 2 events. Stops as Broken where the device does not say DONE.
    fn eeprom_word(&mut self, address: u8) -> Result<u16, Cause>
        requires few { self.old.events ≤ 0x1_FFFF }
        ensures ok { IfOk result (λ word. Gives (B.world self.old.driver.bus) (parts.eeprom_word address) 2 word
            (B.world self.new.driver.bus)) }
        ensures counted { OnOk result (self.new.events ≡ self.old.events + 2) }
        ensures err { IfErr result (λ why. Stops (B.world self.old.driver.bus) (parts.eeprom_word address)
            self.old.events why (B.world self.new.driver.bus) self.new.events) }
        ensures layout { self.new.driver.layout ≡ self.old.driver.layout }
    {
        let asked = EERD_ADDRESS * u32::from(address) + Eerd::START.bits();
        self.write(Reg::Eerd, asked);
        let value = self.read(Reg::Eerd);
        if Eerd::from_bits_retain(value).contains(Eerd::DONE) {
            Ok((value / WORD) as u16)
        } else {
            Err(Cause::Broken)
        }
    }

    /// Reads the EEPROM: 128 events. Stops as Broken, and as Checksum where the words do not have
    /// the sum that they need.
    pub(crate) fn eeprom(&mut self) -> Result<Eeprom, Cause>
        requires few { self.old.events ≤ 0xFFFF }
        ensures ok { IfOk result (λ words. Gives (B.world self.old.driver.bus) parts.eeprom 128 words
            (B.world self.new.driver.bus)) }
        ensures counted { OnOk result (self.new.events ≡ self.old.events + 128) }
        ensures err { IfErr result (λ why. Stops (B.world self.old.driver.bus) parts.eeprom self.old.events why
            (B.world self.new.driver.bus) self.new.events) }
        ensures layout { self.new.driver.layout ≡ self.old.driver.layout }
    {
        let mut words = [0; EEPROM_WORDS as usize];
        for address in 0..EEPROM_WORDS {
            let word = self.eeprom_word(address)?;
            words[usize::from(address)] = word;
        }
        let eeprom = Eeprom::of_words(words);
        if eeprom.checksum_ok() {
            Ok(eeprom)
        } else {
            Err(Cause::Checksum)
        }
    }

    /// Makes the address of an EEPROM the one that the device receives by: 2 events.
    pub(crate) fn receive_address(&mut self, eeprom: &Eeprom)
        requires few { self.old.events ≤ 0xFFFF }
        ensures performs { Performs (B.world self.old.driver.bus) (parts.receive_address eeprom.now) 2
            (B.world self.new.driver.bus) }
        ensures counted { self.new.events ≡ self.old.events + 2 }
        ensures layout { self.new.driver.layout ≡ self.old.driver.layout }
    {
        let low = u32::from(eeprom.word(0)) + WORD * u32::from(eeprom.word(1));
        let high = u32::from(eeprom.word(2)) + Rah::AV.bits();
        self.write(Reg::Ral(0), low);
        self.write(Reg::Rah(0), high);
    }

    /// Clears the multicast table: 128 events.
    pub(crate) fn multicast_table(&mut self)
        requires few { self.old.events ≤ 0xFFFF }
        ensures performs { Performs (B.world self.old.driver.bus) parts.multicast_table 128
            (B.world self.new.driver.bus) }
        ensures counted { self.new.events ≡ self.old.events + 128 }
        ensures layout { self.new.driver.layout ≡ self.old.driver.layout }
    {
        for word in 0..MTA_WORDS {
            self.write(Reg::Mta(word), 0);
        }
    }

    /// Writes a ring of `count` descriptors, each with its own buffer: `count` events. Stops as
    /// Memory or as Broken.
    fn descriptors(&mut self, ring: u64, count: u32, buffers: u64) -> Result<(), Cause>
        requires few { self.old.events ≤ 0xFFFF }
        requires most { count ≤ 4096 }
        requires in_ring { ring + 16 * count ≤ 0xFFFF_FFFF_FFFF_FFFF }
        requires in_buffers { buffers + 2048 * count ≤ 0xFFFF_FFFF_FFFF_FFFF }
        ensures ok { OnOk result (Performs (B.world self.old.driver.bus) (parts.descriptors ring count buffers) count
            (B.world self.new.driver.bus)) }
        ensures counted { OnOk result (self.new.events ≡ self.old.events + count) }
        ensures err { IfErr result (λ why. Stops (B.world self.old.driver.bus) (parts.descriptors ring count buffers)
            self.old.events why (B.world self.new.driver.bus) self.new.events) }
        ensures layout { self.new.driver.layout ≡ self.old.driver.layout }
    {
        for i in 0..count {
            let addr = ring + DESCRIPTOR_OCTETS * u64::from(i);
            let octets = fresh_descriptor(buffers + BUFFER_OCTETS * u64::from(i));
            self.poke(addr, &octets)?;
        }
        Ok(())
    }

    /// Makes the receive ring and enables receiving: an event for each descriptor, and 6. Stops as
    /// Memory or as Broken.
    pub(crate) fn receive_ring(&mut self) -> Result<(), Cause>
        requires few { self.old.events ≤ 0xFFFF }
        ensures ok { OnOk result (Performs (B.world self.old.driver.bus)
            (parts.receive_ring self.old.driver.layout) (self.old.driver.layout.rx_count + 6)
            (B.world self.new.driver.bus)) }
        ensures counted { OnOk result (self.new.events ≡ self.old.events + self.old.driver.layout.rx_count + 6) }
        ensures err { IfErr result (λ why. Stops (B.world self.old.driver.bus)
            (parts.receive_ring self.old.driver.layout) self.old.events why
            (B.world self.new.driver.bus) self.new.events) }
        ensures layout { self.new.driver.layout ≡ self.old.driver.layout }
    {
        let ring = self.driver.layout.rx_ring;
        let count = self.driver.layout.rx_count;
        let buffers = self.driver.layout.rx_buffers;
        self.descriptors(ring, count, buffers)?;
        self.write(Reg::Rdbal, low(ring));
        self.write(Reg::Rdbah, high(ring));
        self.write(Reg::Rdlen, DESCRIPTOR_OCTETS as u32 * count);
        self.write(Reg::Rdh, 0);
        self.write(Reg::Rdt, count - 1);
        let control = Rctl::EN.union(Rctl::UPE).union(Rctl::MPE).union(Rctl::BAM);
        self.write(Reg::Rctl, control.bits());
        Ok(())
    }

    /// Makes the transmit ring and enables transmitting: an event for each descriptor, and 7. Stops
    /// as Memory or as Broken.
    pub(crate) fn transmit_ring(&mut self) -> Result<(), Cause>
        requires few { self.old.events ≤ 0xFFFF }
        ensures ok { OnOk result (Performs (B.world self.old.driver.bus)
            (parts.transmit_ring self.old.driver.layout) (self.old.driver.layout.tx_count + 7)
            (B.world self.new.driver.bus)) }
        ensures counted { OnOk result (self.new.events ≡ self.old.events + self.old.driver.layout.tx_count + 7) }
        ensures err { IfErr result (λ why. Stops (B.world self.old.driver.bus)
            (parts.transmit_ring self.old.driver.layout) self.old.events why
            (B.world self.new.driver.bus) self.new.events) }
        ensures layout { self.new.driver.layout ≡ self.old.driver.layout }
    {
        let ring = self.driver.layout.tx_ring;
        let count = self.driver.layout.tx_count;
        let buffers = self.driver.layout.tx_buffers;
        self.descriptors(ring, count, buffers)?;
        self.write(Reg::Tdbal, low(ring));
        self.write(Reg::Tdbah, high(ring));
        self.write(Reg::Tdlen, DESCRIPTOR_OCTETS as u32 * count);
        self.write(Reg::Tdh, 0);
        self.write(Reg::Tdt, 0);
        self.write(Reg::Tipg, PACKET_GAPS);
        let control = Tctl::EN.union(Tctl::PSP).bits() + COLLISION_THRESHOLD + COLLISION_DISTANCE;
        self.write(Reg::Tctl, control);
        Ok(())
    }
}

/// The octets of a descriptor that has a buffer, and nothing in it.
fn fresh_descriptor(buffer: u64) -> Descriptor
    ensures { result ≡ parts.fresh_descriptor buffer }
{
    let mut octets = [0; DESCRIPTOR_OCTETS as usize];
    LittleEndian::write_u64(&mut octets, buffer);
    octets
}

/// The low 32 bits of a base address.
fn low(base: u64) -> u32
    ensures { result ≡ base % 0x1_0000_0000 }
{
    (base % BASE_HIGH) as u32
}

/// The other bits of a base address.
fn high(base: u64) -> u32
    ensures { result ≡ base / 0x1_0000_0000 }
{
    (base / BASE_HIGH) as u32
}
