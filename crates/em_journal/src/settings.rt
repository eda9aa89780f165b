//! What a machine is made of, and what it is made of where nobody says otherwise.
ghost use Rattle.std.specs.Prelude.{◌≡◌, ◌↔◌, IfOk, IfErr, OnOk};
ghost use Rattle.em_mem.specs.Memory.{IsMemoryRange};
ghost use Rattle.em_journal.specs.Settings.{name_of, new_machine, AreAllowed, IsRefusedAs};

use crate::machine::{Machine, is_budget};
use crate::refusal::JournalRefusal;
use em_eeprom::Eeprom;
use em_mem::MemRefusal;
use em_regs::Profile;
use em_step::Adapter;
use std::alloc::Global;
use thiserror::Error;

/// What a machine is made of; `Settings::default()` is what it is made of where nobody says otherwise.
#[derive(Clone, Copy, PartialEq, Eq, Debug)]
pub struct Settings {
    /// Which profile it is of.
    pub profile: Profile,
    /// The address of the first octet of the guest's memory: a multiple of 4,096.
    pub base: u64,
    /// How many octets that memory has: a multiple of 4,096, from 4,096 on. It ends at 2^40 at most.
    pub memory: u64,
    /// The journal's budget in octets of cost, from 65,536 to 16,777,216.
    pub budget: u64,
    /// The adapter's Ethernet address, octet 0 first.
    pub mac: [u8; 6],
}

/// The first profile, 64 KiB of memory from address 0 on, 1 MiB for the journal, and an address that is administered locally.
const DEFAULTS: Settings = Settings {
    profile: Profile::Table,
    base: 0,
    memory: 65_536,
    budget: 1_048_576,
    mac: [0x52, 0x54, 0x00, 0x12, 0x34, 0x56],
};

impl Default for Settings {
    ghost use Rattle.em_journal.specs.Settings.{IsDefault};

    ghost is_default = { IsDefault };

    fn default() -> Settings {
        DEFAULTS
    }
}

/// Why settings made no machine. Where several causes are there, the first of them is named.
#[derive(Clone, Copy, PartialEq, Eq, Debug, Error)]
#[error("{}", self.name())]
pub enum SettingsRefusal {
    /// Memory can not lie there, or have that size.
    Size,
    /// The budget lies outside 65,536 to 16,777,216 octets of cost.
    Budget,
    /// Memory was refused.
    Memory,
}

impl SettingsRefusal {
    /// The name of the refusal, as it is printed.
    pub fn name(self) -> &'static str
        ensures { result.now ≡ name_of self }
    {
        match self {
            SettingsRefusal::Size => "Size",
            SettingsRefusal::Budget => "Budget",
            SettingsRefusal::Memory => "Memory",
        }
    }
}

impl Settings {
    /// A new machine: the state after a reset, over a memory of zeros, with the link down and an
    /// empty journal.
    ///
    /// Refused as Size, or else as Budget; as Memory only where neither is refused.
    pub fn machine(&self, alloc: Global) -> Result<Machine, SettingsRefusal>
        ensures ok { IfOk result (λ machine. machine ≡ new_machine self.now) }
        ensures allowed { OnOk result (AreAllowed self.now) }
        ensures err { IfErr result (IsRefusedAs self.now) }
    {
        let eeprom = Eeprom::of_mac(self.mac);
        let adapter = match Adapter::at_as(alloc, self.profile, self.base, self.memory, eeprom) {
            Ok(adapter) => adapter,
            Err(refusal) => return Err(self.without_adapter(refusal)),
        };
        match Machine::new(alloc, adapter, self.budget) {
            Ok(machine) => Ok(machine),
            Err((_, JournalRefusal::Budget)) => Err(SettingsRefusal::Budget),
            Err((_, JournalRefusal::Memory)) => Err(SettingsRefusal::Memory),
        }
    }

    /// What refuses settings for which no adapter was made: a budget that is not allowed is named
    /// before the want of memory.
    fn without_adapter(&self, refusal: MemRefusal) -> SettingsRefusal
        requires size { (refusal ≡ MemRefusal.Size) ↔ (IsMemoryRange self.now.base self.now.memory → ⊥) }
        requires memory { refusal ≡ MemRefusal.Memory → IsMemoryRange self.now.base self.now.memory }
        ensures { IsRefusedAs self.now result }
    {
        match refusal {
            MemRefusal::Size => SettingsRefusal::Size,
            MemRefusal::Memory if is_budget(self.budget) => SettingsRefusal::Memory,
            MemRefusal::Memory => SettingsRefusal::Budget,
        }
    }
}
