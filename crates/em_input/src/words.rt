//! Words of a command line, as each program has them that takes more than em_bench's.

use crate::head::Head;
use crate::numbers::{address_of, profile_of, size_of};
use em_journal::Settings;
use em_regs::Profile;
use std::alloc::{AllocError, Global};

/// What `--memory` and `--base` may have.
pub const SIZES: &str =
    "guest memory begins at a multiple of 4096, has a multiple of 4096 octets, and ends at \
10000000000 at most";

/// What `--base` has to have.
pub const BASES: &str = "--base wants 1 to 16 hexadecimal digits";

/// What `--profile` has to have.
pub const PROFILES: &str = "--profile wants table or adapter";

/// What `--budget` may have.
pub const BUDGETS: &str = "the journal's records may cost from 65536 to 16777216 octets together";

/// What `--mac` may have.
pub const MACS: &str = "an Ethernet address is 12 hexadecimal digits, in which colons may stand";

/// The words that say what a machine is made of.
#[derive(Drop)]
pub struct MachineWords {
    /// The program's name, and the words as em_bench has them: addresses without colons, and sizes in octets.
    pub options: Vec<String>,
    /// Where memory begins, if a word says so.
    base: Option<u64>,
    /// Which profile it is of, if a word says so.
    profile: Option<Profile>,
    /// Whether a word says how much memory there is.
    has_size: bool,
    /// Whether one says how much the journal's records may cost.
    has_budget: bool,
    /// Whether one gives an Ethernet address.
    has_mac: bool,
    awaits: Awaits,
}

/// What the word before one is to it.
#[derive(Clone, Copy)]
enum Awaits {
    /// `--mac`, which an address follows.
    Mac,
    /// `--memory`, which a size follows.
    Size,
    /// `--base`, which an address follows.
    Base,
    /// `--profile`, which a name follows.
    Profile,
    /// `--budget`, which a number follows.
    Budget,
    /// `--` stood before: each word is a file.
    Files,
    Nothing,
}

/// Why a word is refused.
#[derive(Clone, Copy)]
pub enum WordRefused {
    /// What stands behind `--base` is no address.
    Base,
    /// `--base` stands twice.
    TwoBases,
    /// What stands behind `--profile` is no profile.
    Profile,
    /// `--profile` stands twice.
    TwoProfiles,
    /// Memory was refused.
    Memory,
}

impl From<AllocError> for WordRefused {
    fn from(_: AllocError) -> WordRefused {
        WordRefused::Memory
    }
}

impl MachineWords {
    /// No word was taken.
    pub fn new(alloc: Global) -> MachineWords {
        MachineWords {
            options: Vec::new(alloc),
            base: None,
            profile: None,
            has_size: false,
            has_budget: false,
            has_mac: false,
            awaits: Awaits::Nothing,
        }
    }

    /// Whether the next word is an option's value.
    pub fn awaits_value(&self) -> bool {
        self.awaits != Awaits::Nothing && self.awaits != Awaits::Files
    }

    /// Why the words are refused at their end, where a value is missing that em_bench knows nothing of.
    pub fn lacks(&self) -> Option<WordRefused> {
        match self.awaits {
            Awaits::Base => Some(WordRefused::Base),
            Awaits::Profile => Some(WordRefused::Profile),
            _ => None,
        }
    }

    /// Takes a word.
    pub fn take(&mut self, alloc: Global, word: String) -> Result<(), WordRefused> {
        let awaits = self.awaits;
        self.awaits = Awaits::Nothing;
        match awaits {
            Awaits::Mac => self.put(without_colons(alloc, word.as_str())?)?,
            Awaits::Size => self.put(in_octets(alloc, word.as_str())?)?,
            Awaits::Base => self.set_base(word.as_str())?,
            Awaits::Profile => self.set_profile(word.as_str())?,
            Awaits::Budget => self.put(word)?,
            Awaits::Files => {
                self.awaits = Awaits::Files;
                self.put(word)?;
            }
            Awaits::Nothing => self.take_option(alloc, word)?,
        }
        Ok(())
    }

    /// Takes a word that is no option's value.
    fn take_option(&mut self, alloc: Global, word: String) -> Result<(), WordRefused> {
        match word.as_str() {
            "--" => self.awaits = Awaits::Files,
            "--mac" => {
                self.has_mac = true;
                self.awaits = Awaits::Mac;
            }
            "--budget" => {
                self.has_budget = true;
                self.awaits = Awaits::Budget;
            }
            "--memory" => {
                self.has_size = true;
                self.awaits = Awaits::Size;
            }
            "--base" => {
                self.awaits = Awaits::Base;
                return Ok(());
            }
            "--profile" => {
                self.awaits = Awaits::Profile;
                return Ok(());
            }
            text => return self.take_other(alloc, text),
        }
        self.put(word)?;
        Ok(())
    }

    /// Takes a word that has its option's value in it, or is none of these options.
    fn take_other(&mut self, alloc: Global, text: &str) -> Result<(), WordRefused> {
        if let Some(base) = text.strip_prefix("--base=") {
            return self.set_base(base);
        }
        if let Some(profile) = text.strip_prefix("--profile=") {
            return self.set_profile(profile);
        }
        if let Some(size) = text.strip_prefix("--memory=") {
            self.has_size = true;
            let size = in_octets(alloc, size)?;
            self.put(format!(in alloc; "--memory={size}")?)?;
        } else if text.starts_with("--mac=") {
            self.has_mac = true;
            self.put(without_colons(alloc, text)?)?;
        } else {
            self.has_budget = self.has_budget || text.starts_with("--budget=");
            self.put(String::from_str(alloc, text)?)?;
        }
        Ok(())
    }

    /// Puts a word behind em_bench's.
    fn put(&mut self, word: String) -> Result<(), AllocError> {
        self.options.push(word)?;
        Ok(())
    }

    /// What the machine is made of: what the words say by em_bench's settings, and else what the head of the script says.
    /// Where a word says something of memory, the head says nothing of it.
    pub fn settings(&self, said: Settings, head: Option<Head>) -> Settings {
        let base = self.base.unwrap_or(0);
        let profile = self.profile.unwrap_or(said.profile);
        let Some(head) = head else {
            return Settings {
                profile,
                base,
                ..said
            };
        };
        let (base, memory) = if self.base.is_some() || self.has_size {
            (base, said.memory)
        } else {
            (
                head.base.unwrap_or(base),
                head.memory.unwrap_or(said.memory),
            )
        };
        Settings {
            profile: self.profile.or(head.profile).unwrap_or(said.profile),
            base,
            memory,
            budget: if self.has_budget {
                said.budget
            } else {
                head.budget.unwrap_or(said.budget)
            },
            mac: if self.has_mac {
                said.mac
            } else {
                head.mac.unwrap_or(said.mac)
            },
        }
    }

    fn set_profile(&mut self, text: &str) -> Result<(), WordRefused> {
        if self.profile.is_some() {
            return Err(WordRefused::TwoProfiles);
        }
        self.profile = profile_of(text.as_bytes());
        if self.profile.is_none() {
            return Err(WordRefused::Profile);
        }
        Ok(())
    }

    fn set_base(&mut self, text: &str) -> Result<(), WordRefused> {
        if self.base.is_some() {
            return Err(WordRefused::TwoBases);
        }
        self.base = address_of(text.as_bytes());
        if self.base.is_none() {
            return Err(WordRefused::Base);
        }
        Ok(())
    }
}

/// An Ethernet address as em_bench has it: without colons.
fn without_colons(alloc: Global, word: &str) -> Result<String, AllocError> {
    let mut digits = String::new(alloc);
    for digit in word.chars() {
        if digit != ':' {
            digits.push(digit)?;
        }
    }
    Ok(digits)
}

/// A size as em_bench has it: without K, M or G. What is no size stays as it is.
fn in_octets(alloc: Global, word: &str) -> Result<String, AllocError> {
    match size_of(word.as_bytes()) {
        Some(size) => size.to_string(alloc),
        None => String::from_str(alloc, word),
    }
}
