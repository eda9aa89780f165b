//! What the tests looked at, so that a caller can follow it to the event that set it.
ghost use Rattle.std.specs.Prelude.{◌≡◌, ◌+◌, ◌^◌, [], ◌∷◌, IfOk};
ghost use Rattle.em_reasons.specs.Bits.{bit_of, word_of};
ghost use Rattle.em_reasons.specs.Looks.{dropped_looks, refused_looks, rx_idle_looks, tx_idle_looks, tx_place};

use crate::bits::{mask_of, word_of};
use crate::{Dropped, Refused, RxIdle, TxIdle};
use bitflags::Flags;
use em_regs::{Ctrl, Rctl, Reg, Status, Tctl};
use std::alloc::{AllocError, Global};

/// All bits of a register, and the low half of them.
const EVERY_BIT: u32 = 0xFFFF_FFFF;

const LOW_HALF: u32 = 0x0000_FFFF;

/// The bits that RDBAL and TDBAL keep, and those that RDLEN and TDLEN keep.
const BASE: u32 = 0xFFFF_FFF0;

const LENGTH: u32 = 0x000F_FF80;

/// The bits of RCTL by which a MAC control frame passes: UPE, MPE, MO, BAM and PMCF.
const CONTROL_BITS: u32 = 0x0080_B018;

/// What of a descriptor decides: its buffer's address, with the length behind it, that length, and CMD.
const ADDRESS_OCTETS: u32 = 8;

const BUFFER_OCTETS: u32 = 10;

const LENGTH_AT: u32 = 8;

const LENGTH_OCTETS: u32 = 2;

const COMMAND_AT: u32 = 11;

const COMMAND_OCTETS: u32 = 1;

/// What a test looked at.
#[derive(Clone, Copy, Debug, PartialEq, Eq)]
pub enum Look {
    /// These bits of a register.
    Bits { reg: Reg, mask: u32 },
    /// The 16 entries of the address filter: each RAL and RAH.
    Entries,
    /// The frames that wait in the FIFO.
    Frames,
    /// So many octets of the descriptor at an address of guest memory, from one of them on.
    Octets { at: u128, first: u32, count: u32 },
}

fn bits(reg: Reg, mask: u32) -> Look
    ensures { result ≡ Look.Bits reg mask }
{
    Look::Bits { reg, mask }
}

impl RxIdle {
    /// What the test looked at that is the reason.
    pub fn looked_at(self, alloc: Global) -> Result<Vec<Look>, AllocError>
        ensures { IfOk result (λ looks. looks.items ≡ rx_idle_looks self) }
    {
        match self {
            RxIdle::Disabled => Vec::from_slice(alloc, &[bits(Reg::Rctl, Rctl::EN.bits())]),
            RxIdle::NoRing => Vec::from_slice(alloc, &[bits(Reg::Rdlen, LENGTH)]),
            RxIdle::HeadPast { .. } => Vec::from_slice(
                alloc,
                &[bits(Reg::Rdh, LOW_HALF), bits(Reg::Rdlen, LENGTH)],
            ),
            RxIdle::TailPast { .. } => Vec::from_slice(
                alloc,
                &[bits(Reg::Rdt, LOW_HALF), bits(Reg::Rdlen, LENGTH)],
            ),
            RxIdle::Empty { .. } => Vec::from_slice(
                alloc,
                &[bits(Reg::Rdh, LOW_HALF), bits(Reg::Rdt, LOW_HALF)],
            ),
            RxIdle::NoFrame => Vec::from_slice(alloc, &[Look::Frames]),
        }
    }
}

impl TxIdle {
    /// What the test looked at that is the reason.
    pub fn looked_at(self, alloc: Global) -> Result<Vec<Look>, AllocError>
        ensures { IfOk result (λ looks. looks.items ≡ tx_idle_looks self) }
    {
        match self {
            TxIdle::Disabled => Vec::from_slice(alloc, &[bits(Reg::Tctl, Tctl::EN.bits())]),
            TxIdle::NoRing => Vec::from_slice(alloc, &[bits(Reg::Tdlen, LENGTH)]),
            TxIdle::HeadPast { .. } => Vec::from_slice(
                alloc,
                &[bits(Reg::Tdh, LOW_HALF), bits(Reg::Tdlen, LENGTH)],
            ),
            TxIdle::TailPast { .. } => Vec::from_slice(
                alloc,
                &[bits(Reg::Tdt, LOW_HALF), bits(Reg::Tdlen, LENGTH)],
            ),
            TxIdle::Empty { .. } => Vec::from_slice(
                alloc,
                &[bits(Reg::Tdh, LOW_HALF), bits(Reg::Tdt, LOW_HALF)],
            ),
            TxIdle::LinkDown => Vec::from_slice(
                alloc,
                &[
                    bits(Reg::Status, Status::LU.bits()),
                    bits(Reg::Rctl, Rctl::LBM.bits()),
                ],
            ),
        }
    }
}

impl Dropped {
    /// What the test looked at that is the reason, besides the frame.
    pub fn looked_at(self, alloc: Global) -> Result<Vec<Look>, AllocError>
        ensures { IfOk result (λ looks. looks.items ≡ dropped_looks self) }
    {
        match self {
            Dropped::Down => Vec::from_slice(alloc, &[bits(Reg::Status, Status::LU.bits())]),
            Dropped::Disabled => Vec::from_slice(alloc, &[bits(Reg::Rctl, Rctl::EN.bits())]),
            Dropped::Unicast { .. } => {
                Vec::from_slice(alloc, &[bits(Reg::Rctl, Rctl::UPE.bits()), Look::Entries])
            }
            Dropped::Multicast { hash, .. } => Vec::from_slice(
                alloc,
                &[
                    bits(Reg::Rctl, Rctl::MPE.union(Rctl::MO).bits()),
                    mta(hash),
                    Look::Entries,
                ],
            ),
            Dropped::Broadcast { hash } => Vec::from_slice(
                alloc,
                &[
                    bits(Reg::Rctl, Rctl::MPE.union(Rctl::MO).union(Rctl::BAM).bits()),
                    mta(hash),
                    Look::Entries,
                ],
            ),
            Dropped::Control { hash, .. } => Vec::from_slice(
                alloc,
                &[bits(Reg::Rctl, CONTROL_BITS), mta(hash), Look::Entries],
            ),
            Dropped::Undersize { .. } => Ok(Vec::new(alloc)),
            Dropped::Oversize { .. } => Vec::from_slice(
                alloc,
                &[bits(Reg::Rctl, Rctl::LPE.bits())],
            ),
            Dropped::Overlong { .. } => Vec::from_slice(
                alloc,
                &[bits(Reg::Rctl, Rctl::SBP.union(Rctl::LPE).bits())],
            ),
            Dropped::Vlan { identifier } => Vec::from_slice(
                alloc,
                &[
                    bits(Reg::Rctl, Rctl::VFE.bits()),
                    bits(Reg::Vet, LOW_HALF),
                    bits(Reg::Vfta(word_of(identifier)), mask_of(identifier)),
                ],
            ),
            Dropped::Cfi { .. } => Vec::from_slice(
                alloc,
                &[
                    bits(Reg::Rctl, Rctl::CFIEN.union(Rctl::CFI).bits()),
                    bits(Reg::Vet, LOW_HALF),
                ],
            ),
            Dropped::Pause => Vec::from_slice(alloc, &[bits(Reg::Rctl, Rctl::DPF.bits())]),
            Dropped::Missed { .. } => Vec::from_slice(
                alloc,
                &[
                    Look::Frames,
                    bits(Reg::Ctrl, Ctrl::VME.bits()),
                    bits(Reg::Vet, LOW_HALF),
                ],
            ),
        }
    }
}

/// The bit of a hash in the MTA.
fn mta(hash: u16) -> Look
    ensures { result ≡ Look.Bits (Reg.Mta (word_of hash)) (2 ^ bit_of hash) }
{
    bits(Reg::Mta(word_of(hash)), mask_of(hash))
}

impl Refused {
    /// What the test looked at that is the reason, besides the event.
    pub fn looked_at(self, alloc: Global) -> Result<Vec<Look>, AllocError>
        ensures { IfOk result (λ looks. looks.items ≡ refused_looks self) }
    {
        match self {
            Refused::NoRegister { .. } => Ok(Vec::new(alloc)),
            Refused::Range { .. } => Ok(Vec::new(alloc)),
            Refused::WriteLength { .. } => Ok(Vec::new(alloc)),
            Refused::FrameLength { .. } => Ok(Vec::new(alloc)),
            Refused::RxDescriptor { .. } => Vec::from_slice(
                alloc,
                &[
                    bits(Reg::Rdbal, BASE),
                    bits(Reg::Rdbah, EVERY_BIT),
                    bits(Reg::Rdh, LOW_HALF),
                ],
            ),
            Refused::RxBuffer { at, .. } => Vec::from_slice(
                alloc,
                &[
                    Look::Octets {
                        at,
                        first: 0,
                        count: ADDRESS_OCTETS,
                    },
                    bits(Reg::Rctl, Rctl::BSIZE.union(Rctl::BSEX).bits()),
                    Look::Frames,
                    bits(Reg::Rdbal, BASE),
                    bits(Reg::Rdbah, EVERY_BIT),
                    bits(Reg::Rdh, LOW_HALF),
                ],
            ),
            Refused::TxDescriptor { .. } => Vec::from_slice(
                alloc,
                &[
                    bits(Reg::Tdbal, BASE),
                    bits(Reg::Tdbah, EVERY_BIT),
                    bits(Reg::Tdh, LOW_HALF),
                ],
            ),
            Refused::Extended { at, .. } => tx_octets(alloc, at, COMMAND_AT, COMMAND_OCTETS),
            Refused::TooLong { at, .. } => tx_octets(alloc, at, LENGTH_AT, LENGTH_OCTETS),
            Refused::Overlong { at, .. } => tx_octets(alloc, at, 0, BUFFER_OCTETS),
            Refused::TxBuffer { at, .. } => tx_octets(alloc, at, 0, BUFFER_OCTETS),
            Refused::Memory => Ok(Vec::new(alloc)),
        }
    }
}

/// Octets of the descriptor at TDH, and where that lies.
fn tx_octets(alloc: Global, at: u128, first: u32, count: u32) -> Result<Vec<Look>, AllocError>
    ensures { IfOk result (λ looks. looks.items ≡ Look.Octets at first count ∷ tx_place) }
{
    Vec::from_slice(
        alloc,
        &[
            Look::Octets { at, first, count },
            bits(Reg::Tdbal, BASE),
            bits(Reg::Tdbah, EVERY_BIT),
            bits(Reg::Tdh, LOW_HALF),
        ],
    )
}
