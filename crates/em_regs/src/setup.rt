//! What the registers say of the two rings.
ghost use Rattle.std.specs.Prelude.{◌≡◌, ◌<◌, ◌≤◌, ◌^◌};
ghost use Rattle.em_regs.specs.Storage.{Registers};
ghost use Rattle.em_regs.specs.Setup.{pair, buffer_size, few_of};
ghost use Rattle.em_regs.specs.RegFile.{IsStored};
ghost use Rattle.em_regs.specs.Ring.{rx_ring, tx_ring};

use crate::bits::{Ctrl, Rctl, Tctl};
use crate::reg::Reg;
use crate::reg_file::RegFile;
use crate::ring::{DESCRIPTOR_OCTETS, Ring};
use bitflags::Flags;

/// The lowest bit of RCTL.BSIZE and of RCTL.RDMTS, fields of two bits.
const BSIZE_BIT: u32 = 0x0001_0000;

const RDMTS_BIT: u32 = 0x0000_0100;

/// The sizes of a receive buffer in octets by BSIZE, with BSEX clear.
const SIZES: [u32; 4] = [2048, 1024, 512, 256];

/// The sizes with BSEX set.
const GREATER_SIZES: [u32; 4] = [2048, 16384, 8192, 4096];

/// The set-up of the receive ring.
#[derive(Clone, Copy, Debug, PartialEq, Eq)]
pub struct RxSetup {
    /// RCTL.EN: frames are received.
    pub enabled: bool,
    /// The address of descriptor 0, in octets: RDBAH and RDBAL as one number.
    pub base: u64,
    /// How many descriptors of 16 octets the ring has: RDLEN / 16.
    pub count: u32,
    /// RDH, the first descriptor that is the adapter's.
    pub head: u32,
    /// RDT, the first descriptor past those of the adapter.
    pub tail: u32,
    /// The size of each buffer in octets, by RCTL.BSIZE and BSEX.
    pub buffer: u32,
    /// How many descriptors are few, by RCTL.RDMTS.
    pub threshold: u32,
}

/// The set-up of the transmit ring.
#[derive(Clone, Copy, Debug, PartialEq, Eq)]
pub struct TxSetup {
    /// TCTL.EN: frames are sent.
    pub enabled: bool,
    /// TCTL.PSP: short frames are padded.
    pub pad: bool,
    /// The address of descriptor 0, in octets: TDBAH and TDBAL as one number.
    pub base: u64,
    /// How many descriptors of 16 octets the ring has: TDLEN / 16.
    pub count: u32,
    /// TDH, the first descriptor that is the adapter's.
    pub head: u32,
    /// TDT, the first descriptor past those of the adapter.
    pub tail: u32,
    /// VET, the VLAN Ethernet type that a tag begins with, where CTRL.VME is set.
    pub vlan: Option<u16>,
}

impl RxSetup {
    /// Its ring.
    #[inline(always)]
    pub fn ring(&self) -> Ring
        ensures { result ≡ rx_ring self.now }
    {
        Ring {
            enabled: self.enabled,
            base: self.base,
            count: self.count,
            head: self.head,
            tail: self.tail,
        }
    }
}

impl TxSetup {
    /// Its ring.
    #[inline(always)]
    pub fn ring(&self) -> Ring
        ensures { result ≡ tx_ring self.now }
    {
        Ring {
            enabled: self.enabled,
            base: self.base,
            count: self.count,
            head: self.head,
            tail: self.tail,
        }
    }
}

impl RegFile {
    ghost use Rattle.em_regs.specs.Setup.{rx_setup, tx_setup};

    /// The receive ring as the registers say it.
    pub fn ring_rx(&self) -> RxSetup
        ensures setup { result ≡ rx_setup self.now }
        ensures count { result.count < 2 ^ 28 }
        ensures some { 256 ≤ result.buffer }
        ensures buffer { result.buffer ≤ 16_384 }
    {
        let rctl = self.look(Reg::Rctl);
        let count = self.look(Reg::Rdlen) / DESCRIPTOR_OCTETS as u32;
        RxSetup {
            enabled: Rctl::from_bits_retain(rctl).contains(Rctl::EN),
            base: self.register_pair(Reg::Rdbah, Reg::Rdbal),
            count,
            head: self.look(Reg::Rdh),
            tail: self.look(Reg::Rdt),
            buffer: buffer_size(rctl),
            threshold: threshold(rctl, count),
        }
    }

    /// The transmit ring as the registers say it.
    pub fn ring_tx(&self) -> TxSetup
        ensures { result ≡ tx_setup self.now }
    {
        let tctl = Tctl::from_bits_retain(self.look(Reg::Tctl));
        let tagging = Ctrl::from_bits_retain(self.look(Reg::Ctrl)).contains(Ctrl::VME);
        let vet = (self.look(Reg::Vet) % 0x1_0000) as u16;
        TxSetup {
            enabled: tctl.contains(Tctl::EN),
            pad: tctl.contains(Tctl::PSP),
            base: self.register_pair(Reg::Tdbah, Reg::Tdbal),
            count: self.look(Reg::Tdlen) / DESCRIPTOR_OCTETS as u32,
            head: self.look(Reg::Tdh),
            tail: self.look(Reg::Tdt),
            vlan: if tagging { Some(vet) } else { None },
        }
    }

    /// Two registers as one number.
    fn register_pair(&self, high: Reg, low: Reg) -> u64
        requires high { IsStored high }
        requires low { IsStored low }
        ensures { result ≡ pair self.now high low }
    {
        u64::from(self.look(high)) * 0x1_0000_0000 + u64::from(self.look(low))
    }
}

/// The size of a receive buffer in octets by RCTL.BSIZE and BSEX (manual, chapter on register descriptions).
pub fn buffer_size(rctl: u32) -> u32
    ensures size { result ≡ buffer_size rctl }
    ensures some { 0 < result }
    ensures most { result ≤ 16_384 }
{
    let bsize = (rctl / BSIZE_BIT % 4) as usize;
    if Rctl::from_bits_retain(rctl).contains(Rctl::BSEX) {
        GREATER_SIZES[bsize]
    } else {
        SIZES[bsize]
    }
}

fn threshold(rctl: u32, count: u32) -> u32
    ensures { result ≡ few_of count rctl }
{
    let rdmts = (rctl / RDMTS_BIT % 4) as usize;
    [count / 2, count / 4, count / 8, count / 8][rdmts]
}
