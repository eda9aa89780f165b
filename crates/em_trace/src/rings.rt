//! Where the rings of a log lie, and what it writes into memory, and what memory has room for them.

use crate::shown::value_of;
use anyhow::Result;
use em_log::{RegisterAccess, Way};
use em_regs::Reg;
use std::io::Write;

/// How many octets a script's memory has that says nothing of it, from address 0 on.
const USUAL: u64 = 65_536;

/// The least memory that is asked for, as a power of 2: the buffers of a driver's rings lie near to them, and the log does
/// not tell where. It has 128 MiB.
const LEAST_POWER: u32 = 27;

/// The power of 2 at which memory ends at most.
const END_POWER: u32 = 40;

/// How many octets are a mebibyte.
const MIB: u64 = 0x10_0000;

/// How many numbers a register has.
const WORDS: u64 = 0x1_0000_0000;

/// Where a ring lies, by its registers.
#[derive(Clone, Copy)]
struct Lies {
    low: u32,
    high: u32,
    length: u32,
}

impl Lies {
    const NOWHERE: Lies = Lies {
        low: 0,
        high: 0,
        length: 0,
    };

    fn base(self) -> u64 {
        WORDS * u64::from(self.high) + u64::from(self.low)
    }
}

/// Where the rings lie that a log gives to the adapter, and what it writes into memory.
#[derive(Clone, Copy)]
pub struct Rings {
    rx: Lies,
    tx: Lies,
    /// Where the first of them begins, and where the last one ends; none where the log has none.
    lie: Option<(u64, u64)>,
}

/// Memory that begins at an address, and has so many octets.
#[derive(Clone, Copy)]
pub struct Room {
    pub base: u64,
    pub size: u64,
}

impl Rings {
    /// Those of a log of which nothing is read yet.
    pub const NONE: Rings = Rings {
        rx: Lies::NOWHERE,
        tx: Lies::NOWHERE,
        lie: None,
    };

    /// Takes an access of a register. A ring is given to the adapter by a write of its tail.
    pub fn pass(&mut self, reg: Reg, access: RegisterAccess) {
        if access.way != Way::Write {
            return;
        }
        let Some(value) = value_of(access) else {
            return;
        };
        match reg {
            Reg::Rdbal => self.rx.low = value,
            Reg::Rdbah => self.rx.high = value,
            Reg::Rdlen => self.rx.length = value,
            Reg::Rdt => self.give(self.rx),
            Reg::Tdbal => self.tx.low = value,
            Reg::Tdbah => self.tx.high = value,
            Reg::Tdlen => self.tx.length = value,
            Reg::Tdt => self.give(self.tx),
            _ => {}
        }
    }

    /// A ring is the adapter's.
    fn give(&mut self, ring: Lies) {
        if ring.length == 0 {
            return;
        }
        self.cover(ring.base(), u64::from(ring.length));
    }

    /// So many octets from an address on are the script's, too.
    pub fn cover(&mut self, from: u64, len: u64) {
        let to = from.saturating_add(len);
        self.lie = match self.lie {
            Some((first, last)) => Some((first.min(from), last.max(to))),
            None => Some((from, to)),
        };
    }

    /// The memory that has room for them and, as far as can be guessed, for their buffers: the least that begins at a
    /// multiple of its size and has 128 MiB, or 2, 4, 8 .. times as many. None where the usual memory has room, or there is
    /// none at all.
    pub fn room(&self) -> Option<Room> {
        let (from, to) = self.lie?;
        if to <= USUAL {
            return None;
        }
        for power in LEAST_POWER..=END_POWER {
            let size = 1u64 << power;
            if from / size == (to - 1) / size {
                let base = from - from % size;
                return if base < 1u64 << END_POWER {
                    Some(Room { base, size })
                } else {
                    None
                };
            }
        }
        None
    }
}

impl Room {
    /// Writes the words of a command line that say so.
    pub fn write<W: Write>(self, out: &mut W) -> Result<()> {
        let Room { base, size } = self;
        if size % MIB == 0 {
            let size = size / MIB;
            write!(out, " --memory {size}M")?;
        } else {
            write!(out, " --memory {size}")?;
        }
        if base > 0 {
            write!(out, " --base {base:X}")?;
        }
        Ok(())
    }
}
