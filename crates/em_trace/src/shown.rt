//! What a log shows of the adapter: whether it receives, what it is told to send, and its address.

use em_log::{RegisterAccess, Way, Width};
use em_regs::Reg;

/// CTRL's bit RST, which resets the adapter.
const RST: u32 = 0x0400_0000;

/// The bit EN of RCTL and of TCTL.
const EN: u32 = 0x0000_0002;

/// RAH's bit AV: the address is valid.
const AV: u32 = 0x8000_0000;

/// How many octets a descriptor has.
const DESCRIPTOR: u32 = 16;

/// The bits that a tail has.
const INDEX: u32 = 0xFFFF;

/// An Ethernet address.
pub type Address = [u8; 6];

/// What the accesses of a log so far show of the adapter.
#[derive(Clone, Copy)]
pub struct Shown {
    /// RCTL.EN was written last, and no reset behind it.
    pub receives: bool,
    sends: bool,
    /// How many descriptors the transmit ring has.
    ring: u32,
    tail: u32,
    low: Option<u32>,
    /// The first valid address that was read or written.
    pub address: Option<Address>,
}

impl Shown {
    /// An adapter of which nothing was seen.
    pub const NOTHING: Shown = Shown {
        receives: false,
        sends: false,
        ring: 0,
        tail: 0,
        low: None,
        address: None,
    };

    /// Passes an access, and gives how many descriptors it lets the adapter send.
    pub fn pass(&mut self, access: RegisterAccess) -> u32 {
        let Some(value) = value_of(access) else {
            return 0;
        };
        let Some(reg) = Reg::of_offset(access.offset) else {
            return 0;
        };
        self.see_address(reg, value);
        if access.way == Way::Read {
            return 0;
        }
        match reg {
            Reg::Ctrl if value & RST != 0 => self.reset(),
            Reg::Rctl => self.receives = value & EN != 0,
            Reg::Tctl => self.sends = value & EN != 0,
            Reg::Tdlen => self.ring = value / DESCRIPTOR,
            Reg::Tdt => return self.pass_tail(value & INDEX),
            _ => {}
        }
        0
    }

    fn reset(&mut self) {
        self.receives = false;
        self.sends = false;
        self.ring = 0;
        self.tail = 0;
    }

    /// The tail is written: so many descriptors are the adapter's now.
    fn pass_tail(&mut self, tail: u32) -> u32 {
        let before = self.tail;
        self.tail = tail;
        if !self.sends || tail >= self.ring || before >= self.ring {
            return 0;
        }
        if tail >= before {
            tail - before
        } else {
            self.ring - before + tail
        }
    }

    /// RAL 0 and then RAH 0 have the address, if RAH says that it is valid.
    fn see_address(&mut self, reg: Reg, value: u32) {
        if reg == Reg::Ral(0) {
            self.low = Some(value);
        }
        if reg == Reg::Rah(0) && value & AV != 0 && self.address.is_none() {
            if let Some(low) = self.low {
                let [a, b, c, d] = low.to_le_bytes();
                let [e, f, _, _] = value.to_le_bytes();
                self.address = Some([a, b, c, d, e, f]);
            }
        }
    }
}

/// The value of an access of four octets, where the log has it.
pub fn value_of(access: RegisterAccess) -> Option<u32> {
    if access.width != Width::Four {
        return None;
    }
    u32::try_from(access.value?).ok()
}
