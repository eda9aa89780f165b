//! The bits and fields that the filters read of the registers.
ghost use Rattle.std.specs.Prelude.{◌≡◌, ◌<◌, ◌%◌, ◌^◌, ◌==◌, ◌&&◌};
ghost use Rattle.em_filter.specs.Bits.{as_of, av, cfi, cfien, dpf, is_second, pmcf, sbp, takes_long};
ghost use Rattle.em_filter.specs.Bits.{bam, lpe, mo, mpe, mta, rah, ral, upe, vet, vfe, vfta, vme};
ghost use Rattle.em_regs.specs.Setup.{bit};
ghost use Rattle.em_filter.specs.Address.{is_valid};

use bitflags::Flags;
use em_regs::{Ctrl, Profile, Rah, Rctl, Reg, RegFile};

/// The lowest bit of RCTL.MO and of RAH.AS, fields of two bits.
const MO_BIT: u32 = 0x0000_1000;

const AS_BIT: u32 = 0x0001_0000;

/// RAH holds octets 4 and 5 below this.
const TWO_OCTETS: u32 = 0x0001_0000;

/// How many bits a word of the multicast table and of the VLAN filter table has.
pub(crate) const WORD_BITS: u16 = 32;

/// RCTL.UPE: every unicast frame is taken.
pub(crate) fn upe(regs: &RegFile) -> bool
    ensures { result ≡ upe regs.now }
{
    Rctl::from_bits_retain(regs.look(Reg::Rctl)).contains(Rctl::UPE)
}

/// RCTL.MPE: every frame to a group address is taken.
pub(crate) fn mpe(regs: &RegFile) -> bool
    ensures { result ≡ mpe regs.now }
{
    Rctl::from_bits_retain(regs.look(Reg::Rctl)).contains(Rctl::MPE)
}

/// RCTL.LPE: long frames are taken.
fn lpe(regs: &RegFile) -> bool
    ensures { result ≡ lpe regs.now }
{
    Rctl::from_bits_retain(regs.look(Reg::Rctl)).contains(Rctl::LPE)
}

/// RCTL.BAM: broadcast frames are taken.
pub(crate) fn bam(regs: &RegFile) -> bool
    ensures { result ≡ bam regs.now }
{
    Rctl::from_bits_retain(regs.look(Reg::Rctl)).contains(Rctl::BAM)
}

/// RCTL.VFE: the VLAN filter is on.
pub(crate) fn vfe(regs: &RegFile) -> bool
    ensures { result ≡ vfe regs.now }
{
    Rctl::from_bits_retain(regs.look(Reg::Rctl)).contains(Rctl::VFE)
}

/// Whether the bits act that the first profile only stores.
pub(crate) fn is_second(profile: Profile) -> bool
    ensures { result ≡ is_second profile }
{
    matches!(profile, Profile::Adapter)
}

/// RCTL.SBP: bad frames are taken.
fn sbp(profile: Profile, regs: &RegFile) -> bool
    ensures { result ≡ sbp profile regs.now }
{
    is_second(profile) && Rctl::from_bits_retain(regs.look(Reg::Rctl)).contains(Rctl::SBP)
}

/// Long frames are taken: with RCTL.LPE, and in the second profile with RCTL.SBP, since without LPE they are bad frames.
pub(crate) fn takes_long(profile: Profile, regs: &RegFile) -> bool
    ensures { result ≡ takes_long profile regs.now }
{
    sbp(profile, regs) || lpe(regs)
}

/// RCTL.CFIEN: the CFI of tags is compared.
pub(crate) fn cfien(profile: Profile, regs: &RegFile) -> bool
    ensures { result ≡ cfien profile regs.now }
{
    is_second(profile) && Rctl::from_bits_retain(regs.look(Reg::Rctl)).contains(Rctl::CFIEN)
}

/// RCTL.CFI: what it is compared with.
pub(crate) fn cfi(regs: &RegFile) -> bool
    ensures { result ≡ cfi regs.now }
{
    Rctl::from_bits_retain(regs.look(Reg::Rctl)).contains(Rctl::CFI)
}

/// RCTL.DPF: pause frames are discarded.
pub(crate) fn dpf(profile: Profile, regs: &RegFile) -> bool
    ensures { result ≡ dpf profile regs.now }
{
    is_second(profile) && Rctl::from_bits_retain(regs.look(Reg::Rctl)).contains(Rctl::DPF)
}

/// RCTL.PMCF: other MAC control frames are taken.
pub(crate) fn pmcf(profile: Profile, regs: &RegFile) -> bool
    ensures { result ≡ pmcf profile regs.now }
{
    is_second(profile) && Rctl::from_bits_retain(regs.look(Reg::Rctl)).contains(Rctl::PMCF)
}

/// RCTL.MO: where in the address the hash lies.
pub(crate) fn mo(regs: &RegFile) -> u32
    ensures { result ≡ mo regs.now }
{
    regs.look(Reg::Rctl) / MO_BIT % 4
}

/// CTRL.VME: VLAN tags are removed and inserted.
pub(crate) fn vme(regs: &RegFile) -> bool
    ensures { result ≡ vme regs.now }
{
    Ctrl::from_bits_retain(regs.look(Reg::Ctrl)).contains(Ctrl::VME)
}

/// VET: the type of a frame with a VLAN tag.
pub(crate) fn vet(regs: &RegFile) -> u32
    ensures { result ≡ vet regs.now }
{
    regs.look(Reg::Vet)
}

/// Whether a receive address is valid (RAH.AV), and one of destinations (RAH.AS).
pub(crate) fn is_valid(regs: &RegFile, index: u8) -> bool
    requires { index < 16 }
    ensures { result ≡ is_valid regs.now index }
{
    let high = regs.look(Reg::Rah(index));
    Rah::from_bits_retain(high).contains(Rah::AV) && high / AS_BIT % 4 == 0
}

/// Whether a receive address is valid (RAH.AV), and one of sources (RAH.AS).
pub(crate) fn is_source(regs: &RegFile, index: u8) -> bool
    requires { index < 16 }
    ensures { result ≡ av regs.now index && as_of regs.now index == 1 }
{
    let high = regs.look(Reg::Rah(index));
    Rah::from_bits_retain(high).contains(Rah::AV) && high / AS_BIT % 4 == 1
}

/// Octets 0 to 3 of a receive address as one number, and octets 4 and 5.
pub(crate) fn entry(regs: &RegFile, index: u8) -> (u32, u32)
    requires { index < 16 }
    ensures low { result.0 ≡ ral regs.now index }
    ensures high { result.1 ≡ rah regs.now index % 2 ^ 16 }
{
    let low = regs.look(Reg::Ral(index));
    let high = regs.look(Reg::Rah(index)) % TWO_OCTETS;
    (low, high)
}

/// A word of the multicast table.
pub(crate) fn mta(regs: &RegFile, index: u8) -> u32
    requires { index < 128 }
    ensures { result ≡ mta regs.now index }
{
    regs.look(Reg::Mta(index))
}

/// A word of the VLAN filter table.
pub(crate) fn vfta(regs: &RegFile, index: u8) -> u32
    requires { index < 128 }
    ensures { result ≡ vfta regs.now index }
{
    regs.look(Reg::Vfta(index))
}

/// Whether a bit of a word of either table is set.
pub(crate) fn is_set(word: u32, place: u16) -> bool
    requires { place < WORD_BITS }
    ensures { result ≡ bit word place }
{
    (word >> place) % 2 == 1
}
