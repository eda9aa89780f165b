//! The rules by which a write of a register has warnings.
ghost use Rattle.std.specs.Prelude.{◌≡◌};
ghost use Rattle.em_step.specs.Access.{gives};
ghost use Rattle.em_regs.specs.declared.reg.Reg.TheVariants as named;
ghost use Rattle.em_warnings.specs.Rules as rules;

use crate::descriptors::first_flawed;
use crate::flaw::Flaw;
use crate::heads::{head_while_enabled, tail_past_head};
use crate::overlaps::buffers_overlap;
use crate::rings::{length_of, ring_asked, ring_of_control, ring_of_tail, tail_of};
use crate::warning::Warning;
use em_inspect::Side;
use em_journal::Machine;
use em_regs::{DESCRIPTOR_OCTETS, Kind, Reg, Ring};

/// The causes of receiving: RXDMT0, RXO, RXT0 and SRPD.
pub(crate) const RX_CAUSES: u32 = 0x0001_00D0;

/// The causes of sending: TXDW, TXQE and TXD_LOW.
const TX_CAUSES: u32 = 0x0000_8003;

/// How many rules are asked of a write of a register.
pub const RULES: usize = 10;

/// What each rule says of a write of a value to a register, in the order of the rules; none where it says nothing. The
/// machine is as the write left it.
#[tactic(auto, using(crate::proofs::RulesLaws::dropped_alone))]
pub fn warnings_of(machine: &Machine, reg: Reg, value: u32) -> [Option<Warning>; RULES]
    ensures { result ≡ rules.warnings_of machine.now reg value }
{
    if !is_of_ring(reg) {
        return alone(bits_dropped(reg, value));
    }
    [
        bits_dropped(reg, value),
        tail_past_ring(machine, reg),
        enabled_before_ring(machine, reg),
        ring_outside_memory(machine, reg),
        descriptor_unwritten(machine, reg),
        status_left(machine, reg),
        buffers_overlap(machine, reg),
        tail_past_head(machine, reg),
        head_while_enabled(machine, reg),
        interrupts_before_rings(machine, reg),
    ]
}

/// What rules say where one alone is asked.
pub fn alone(warning: Option<Warning>) -> [Option<Warning>; RULES]
    ensures { result ≡ rules.alone warning }
{
    [
        warning, None, None, None, None, None, None, None, None, None,
    ]
}

/// Whether rules besides the first ask about a register: a ring's length, head or tail, what enables it, or IMS.
fn is_of_ring(reg: Reg) -> bool
    ensures { result ≡ rules.is_of_ring reg }
{
    matches!(
        reg,
        Reg::Rdlen
            | Reg::Rdh
            | Reg::Rdt
            | Reg::Tdlen
            | Reg::Tdh
            | Reg::Tdt
            | Reg::Rctl
            | Reg::Tctl
            | Reg::Ims
    )
}

/// The register keeps less than was written, and a write of it only stores.
fn bits_dropped(reg: Reg, written: u32) -> Option<Warning>
    ensures { result ≡ rules.bits_dropped reg written }
{
    let row = reg.row();
    let kept = written & row.mask;
    if matches!(row.kind, Kind::Stored) && kept != written {
        Some(Warning::BitsDropped { reg, kept, written })
    } else {
        None
    }
}

/// The register is a tail, or makes a tail count, and the tail is past its ring.
fn tail_past_ring(machine: &Machine, reg: Reg) -> Option<Warning>
    ensures { result ≡ rules.tail_past_ring machine.now.present reg }
{
    let ring = ring_asked(machine, reg)?;
    if 0 < ring.setup.count && ring.setup.count <= ring.setup.tail {
        Some(Warning::TailPastRing {
            tail: tail_of(ring.side),
            index: ring.setup.tail,
            count: ring.setup.count,
        })
    } else {
        None
    }
}

/// The register enables a ring that has no descriptor.
fn enabled_before_ring(machine: &Machine, control: Reg) -> Option<Warning>
    ensures { result ≡ rules.enabled_before_ring machine.now.present control }
{
    let ring = ring_of_control(machine, control)?;
    if ring.setup.enabled && ring.setup.count == 0 {
        Some(Warning::EnabledBeforeRing {
            control,
            length: length_of(ring.side),
        })
    } else {
        None
    }
}

/// The register is a tail, and gives descriptors of a ring that leaves guest memory.
fn ring_outside_memory(machine: &Machine, tail: Reg) -> Option<Warning>
    ensures { result ≡ rules.ring_outside_memory machine.now.present tail }
{
    let ring = ring_of_tail(machine, tail)?;
    if is_given(&ring.setup) && leaves_memory(machine, &ring.setup) {
        Some(Warning::RingOutsideMemory {
            tail,
            at: u128::from(ring.setup.base),
        })
    } else {
        None
    }
}

/// Whether a descriptor of a ring is the adapter's.
fn is_given(ring: &Ring) -> bool
    ensures { result ≡ rules.is_given ring.now }
{
    ring.head < ring.count && ring.tail < ring.count && ring.head != ring.tail
}

/// Whether a ring leaves guest memory.
fn leaves_memory(machine: &Machine, ring: &Ring) -> bool
    ensures { result ≡ rules.leaves_memory machine.now.present ring.now }
{
    let end = u128::from(ring.base) + DESCRIPTOR_OCTETS as u128 * u128::from(ring.count);
    ring.base < machine.memory_base() || u128::from(machine.memory_end()) < end
}

/// The register is a tail, and a descriptor before it is all zeros.
fn descriptor_unwritten(machine: &Machine, tail: Reg) -> Option<Warning>
    ensures { result ≡ rules.descriptor_unwritten machine.now tail }
{
    let ring = ring_of_tail(machine, tail)?;
    let index = first_flawed(machine, &ring.setup, Flaw::Unwritten)?;
    let at = ring.setup.descriptor_at(index);
    Some(Warning::DescriptorUnwritten { tail, index, at })
}

/// The register is a tail, and a descriptor before it has DD from the lap before.
fn status_left(machine: &Machine, tail: Reg) -> Option<Warning>
    ensures { result ≡ rules.status_left machine.now tail }
{
    let ring = ring_of_tail(machine, tail)?;
    let index = first_flawed(machine, &ring.setup, left_flaw(ring.side))?;
    let at = ring.setup.descriptor_at(index);
    Some(Warning::StatusLeft { tail, index, at })
}

/// What a descriptor has against it whose DD was left: a driver that sends can go by TDH, and then has written it anew.
fn left_flaw(side: Side) -> Flaw
    ensures { result ≡ rules.left_flaw side }
{
    match side {
        Side::Receive(_) => Flaw::StatusLeft,
        Side::Transmit => Flaw::SentBefore,
    }
}

/// The register is IMS, and lets causes of a ring through that has no descriptor.
fn interrupts_before_rings(machine: &Machine, reg: Reg) -> Option<Warning>
    ensures { result ≡ rules.interrupts_before_rings machine.now.present reg }
{
    match reg {
        Reg::Ims => early_by(machine, mask_of(machine)),
        _ => None,
    }
}

/// The causes that are let through.
fn mask_of(machine: &Machine) -> u32
    ensures { result ≡ gives machine.now.present named.Ims }
{
    // each register of the table lies at its offset
    machine.look(Reg::Ims.offset()).unwrap_or(0)
}

/// By the mask, of the receive ring or else of the transmit ring.
fn early_by(machine: &Machine, mask: u32) -> Option<Warning>
    ensures { result ≡ rules.early_by machine.now.present mask }
{
    let rx = machine.ring_rx();
    match early(rx.count, mask & RX_CAUSES, Reg::Rdlen) {
        Some(warning) => Some(warning),
        None => {
            let tx = machine.ring_tx();
            early(tx.count, mask & TX_CAUSES, Reg::Tdlen)
        }
    }
}

/// Of a ring of so many descriptors these causes are let through, and it has none.
fn early(count: u32, causes: u32, length: Reg) -> Option<Warning>
    ensures { result ≡ rules.early count causes length }
{
    if count == 0 && 0 < causes {
        Some(Warning::InterruptsBeforeRings { causes, length })
    } else {
        None
    }
}
