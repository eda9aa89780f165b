//! The bits of the registers, by the manual's names. A field of several bits is named by its mask.
ghost use Rattle.std.specs.Prelude.{⊤, [], ◌∷◌, codes};

use bitflags::{Flag, Flags, bitflag_items};

/// CTRL, the device control register (manual, chapter on register descriptions).
///
/// RST resets the adapter; VME removes and inserts VLAN tags. Other bits are stored and have no
/// effect.
#[derive(Clone, Copy, PartialEq, Eq, Debug)]
pub struct Ctrl(u32);

bitflag_items! {
    impl Ctrl: u32 {
        const FD = 0x0000_0001;
        const SLU = 0x0000_0040;
        const RST = 0x0400_0000;
        const VME = 0x4000_0000;
    }
}

impl Flags for Ctrl {
    type Bits = u32;

    ghost exact = { ⊤ };

    ghost table = { (codes "FD", 0x0000_0001) ∷ (codes "SLU", 0x0000_0040) ∷ (codes "RST", 0x0400_0000) ∷
        (codes "VME", 0x4000_0000) ∷ [] };

    ghost set_of = { λ ctrl. ctrl.0 };

    fn flags<'a>() -> &'a [Flag<Ctrl>] {
        Ctrl::FLAGS
    }

    fn bits(&self) -> u32 {
        self.0
    }

    fn from_bits_retain(bits: u32) -> Ctrl {
        Ctrl(bits)
    }
}

/// STATUS, the device status register (manual, chapter on register descriptions).
///
/// FD says full duplex and LU that the link is up; SPEED is a field of two bits, and SPEED_100 and SPEED_1000 are its
/// values for 100 and 1000 Mb/s.
#[derive(Clone, Copy, PartialEq, Eq, Debug)]
pub struct Status(u32);

bitflag_items! {
    impl Status: u32 {
        const FD = 0x0000_0001;
        const LU = 0x0000_0002;
        const SPEED = 0x0000_00C0;
        const SPEED_100 = 0x0000_0040;
        const SPEED_1000 = 0x0000_0080;
    }
}

impl Flags for Status {
    type Bits = u32;

    ghost exact = { ⊤ };

    ghost table = { (codes "FD", 0x0000_0001) ∷ (codes "LU", 0x0000_0002) ∷ (codes "SPEED", 0x0000_00C0) ∷
        (codes "SPEED_100", 0x0000_0040) ∷ (codes "SPEED_1000", 0x0000_0080) ∷ [] };

    ghost set_of = { λ status. status.0 };

    fn flags<'a>() -> &'a [Flag<Status>] {
        Status::FLAGS
    }

    fn bits(&self) -> u32 {
        self.0
    }

    fn from_bits_retain(bits: u32) -> Status {
        Status(bits)
    }
}

/// EERD, the EEPROM read register (manual, chapter on register descriptions).
///
/// A write with START reads a word of the EEPROM, and DONE says that the word is there.
#[derive(Clone, Copy, PartialEq, Eq, Debug)]
pub struct Eerd(u32);

bitflag_items! {
    impl Eerd: u32 {
        const START = 0x0000_0001;
        const DONE = 0x0000_0010;
    }
}

impl Flags for Eerd {
    type Bits = u32;

    ghost exact = { ⊤ };

    ghost table = { (codes "START", 0x0000_0001) ∷ (codes "DONE", 0x0000_0010) ∷ [] };

    ghost set_of = { λ eerd. eerd.0 };

    fn flags<'a>() -> &'a [Flag<Eerd>] {
        Eerd::FLAGS
    }

    fn bits(&self) -> u32 {
        self.0
    }

    fn from_bits_retain(bits: u32) -> Eerd {
        Eerd(bits)
    }
}

/// The interrupt causes: the bits of ICR, ICS, IMS and IMC (manual, chapter on register descriptions).
///
/// TXDW: a transmit descriptor was written back; TXQE: the transmit queue is empty; LSC: the link
/// changed; RXDMT0: few receive descriptors are left; RXO: a frame was missed; RXT0: a frame was
/// received; MDAC: a command in MDIC is done.
#[derive(Clone, Copy, PartialEq, Eq, Debug)]
pub struct Causes(u32);

bitflag_items! {
    impl Causes: u32 {
        const TXDW = 0x0000_0001;
        const TXQE = 0x0000_0002;
        const LSC = 0x0000_0004;
        const RXDMT0 = 0x0000_0010;
        const RXO = 0x0000_0040;
        const RXT0 = 0x0000_0080;
        const MDAC = 0x0000_0200;
    }
}

impl Flags for Causes {
    type Bits = u32;

    ghost exact = { ⊤ };

    ghost table = { (codes "TXDW", 0x0000_0001) ∷ (codes "TXQE", 0x0000_0002) ∷ (codes "LSC", 0x0000_0004) ∷
        (codes "RXDMT0", 0x0000_0010) ∷ (codes "RXO", 0x0000_0040) ∷ (codes "RXT0", 0x0000_0080) ∷
        (codes "MDAC", 0x0000_0200) ∷ [] };

    ghost set_of = { λ causes. causes.0 };

    fn flags<'a>() -> &'a [Flag<Causes>] {
        Causes::FLAGS
    }

    fn bits(&self) -> u32 {
        self.0
    }

    fn from_bits_retain(bits: u32) -> Causes {
        Causes(bits)
    }
}

/// RCTL, the receive control register (manual, chapter on register descriptions).
///
/// LBM, RDMTS, MO and BSIZE are fields of two bits. LBM, SBP, CFIEN, CFI, DPF, PMCF and SECRC act in the second
/// profile alone. Other bits are stored and have no effect.
#[derive(Clone, Copy, PartialEq, Eq, Debug)]
pub struct Rctl(u32);

bitflag_items! {
    impl Rctl: u32 {
        const EN = 0x0000_0002;
        const SBP = 0x0000_0004;
        const UPE = 0x0000_0008;
        const MPE = 0x0000_0010;
        const LPE = 0x0000_0020;
        const LBM = 0x0000_00C0;
        const RDMTS = 0x0000_0300;
        const MO = 0x0000_3000;
        const BAM = 0x0000_8000;
        const BSIZE = 0x0003_0000;
        const VFE = 0x0004_0000;
        const CFIEN = 0x0008_0000;
        const CFI = 0x0010_0000;
        const DPF = 0x0040_0000;
        const PMCF = 0x0080_0000;
        const BSEX = 0x0200_0000;
        const SECRC = 0x0400_0000;
    }
}

impl Flags for Rctl {
    type Bits = u32;

    ghost exact = { ⊤ };

    ghost table = { (codes "EN", 0x0000_0002) ∷ (codes "SBP", 0x0000_0004) ∷ (codes "UPE", 0x0000_0008) ∷
        (codes "MPE", 0x0000_0010) ∷ (codes "LPE", 0x0000_0020) ∷ (codes "LBM", 0x0000_00C0) ∷
        (codes "RDMTS", 0x0000_0300) ∷ (codes "MO", 0x0000_3000) ∷ (codes "BAM", 0x0000_8000) ∷
        (codes "BSIZE", 0x0003_0000) ∷ (codes "VFE", 0x0004_0000) ∷ (codes "CFIEN", 0x0008_0000) ∷
        (codes "CFI", 0x0010_0000) ∷ (codes "DPF", 0x0040_0000) ∷ (codes "PMCF", 0x0080_0000) ∷
        (codes "BSEX", 0x0200_0000) ∷ (codes "SECRC", 0x0400_0000) ∷ [] };

    ghost set_of = { λ rctl. rctl.0 };

    fn flags<'a>() -> &'a [Flag<Rctl>] {
        Rctl::FLAGS
    }

    fn bits(&self) -> u32 {
        self.0
    }

    fn from_bits_retain(bits: u32) -> Rctl {
        Rctl(bits)
    }
}

/// TCTL, the transmit control register (manual, chapter on register descriptions).
///
/// Only EN and PSP have an effect; its other bits are stored.
#[derive(Clone, Copy, PartialEq, Eq, Debug)]
pub struct Tctl(u32);

bitflag_items! {
    impl Tctl: u32 {
        const EN = 0x0000_0002;
        const PSP = 0x0000_0008;
    }
}

impl Flags for Tctl {
    type Bits = u32;

    ghost exact = { ⊤ };

    ghost table = { (codes "EN", 0x0000_0002) ∷ (codes "PSP", 0x0000_0008) ∷ [] };

    ghost set_of = { λ tctl. tctl.0 };

    fn flags<'a>() -> &'a [Flag<Tctl>] {
        Tctl::FLAGS
    }

    fn bits(&self) -> u32 {
        self.0
    }

    fn from_bits_retain(bits: u32) -> Tctl {
        Tctl(bits)
    }
}

/// RAH, the high word of a receive address (manual, chapter on register descriptions).
///
/// AV says that the address is valid; AS is a field of two bits, and AS 0 a destination address.
#[derive(Clone, Copy, PartialEq, Eq, Debug)]
pub struct Rah(u32);

bitflag_items! {
    impl Rah: u32 {
        const AS = 0x0003_0000;
        const AV = 0x8000_0000;
    }
}

impl Flags for Rah {
    type Bits = u32;

    ghost exact = { ⊤ };

    ghost table = { (codes "AS", 0x0003_0000) ∷ (codes "AV", 0x8000_0000) ∷ [] };

    ghost set_of = { λ rah. rah.0 };

    fn flags<'a>() -> &'a [Flag<Rah>] {
        Rah::FLAGS
    }

    fn bits(&self) -> u32 {
        self.0
    }

    fn from_bits_retain(bits: u32) -> Rah {
        Rah(bits)
    }
}
