//! A warning, as C sees it.
ghost use Rattle.std.specs.Prelude.{◌≡◌, IfOk, IfErr};
ghost use Rattle.em_warnings.specs.Said.{warning_text};
ghost use Rattle.em_regs.specs.Table.{offset_of};
ghost use Rattle.em_c.specs.Told.{address_told};
ghost use Rattle.em_c.specs.Line.{IsTold};
ghost use Rattle.em_c.specs.Warning as the;

use crate::line::{LINE, front_of, line_of};
use crate::refused::Refused;
use crate::told::address_told;
use arrayvec::ArrayVec;
use em_regs::Reg;
use em_warnings::{Warning, write_warning};

/// What a driver seems to get wrong by an access of a register: the number of the rule that says so, its numbers, and
/// the same in words. A number that a rule has not is 0.
#[repr(C)]
#[derive(Clone, Copy)]
pub struct EmWarning {
    /// Where the descriptor lies, or the ring.
    pub address: u64,
    /// The number of the rule.
    pub rule: u32,
    /// The offset of the register that was accessed; of causes without a ring that of the ring's length, and of octets that are
    /// the adapter's that of the ring's head.
    pub offset: u32,
    /// The descriptor's index, or what the tail holds.
    pub index: u32,
    /// How many descriptors the ring has.
    pub count: u32,
    /// The bits that the register keeps,
    pub kept: u32,
    /// of those that were written.
    pub written: u32,
    /// The causes that are let through, or that were cleared.
    pub causes: u32,
    /// The warning in words, and zeros behind it.
    pub text: [u8; LINE],
}

/// No rule, and no numbers.
pub const BLANK: EmWarning = EmWarning {
    address: 0,
    rule: 0,
    offset: 0,
    index: 0,
    count: 0,
    kept: 0,
    written: 0,
    causes: 0,
    text: [0; LINE],
};

impl EmWarning {
    /// A warning with its numbers and its text, which has room.
    pub fn of(warning: Warning) -> Result<EmWarning, Refused>
        ensures { IsTold result (the.warning_told warning) }
    {
        let text = text_of(warning)?;
        let line = line_of(front_of(text.as_slice()))?;
        Ok(EmWarning {
            rule: rule_of(warning),
            text: line,
            ..numbers_of(warning)
        })
    }
}

/// A warning in words, with a newline.
fn text_of(warning: Warning) -> Result<ArrayVec<u8, LINE>, Refused>
    ensures ok { IfOk result (λ text. text.items ≡ warning_text warning) }
    ensures err { IfErr result (λ refused. refused ≡ Refused.Room) }
{
    let mut text = ArrayVec::new();
    match write_warning(&mut text, warning) {
        Ok(()) => Ok(text),
        Err(_) => Err(Refused::Room),
    }
}

/// The number of a warning's rule.
fn rule_of(warning: Warning) -> u32
    ensures { result ≡ the.rule_of warning }
{
    match warning {
        Warning::BitsDropped { .. } => 1,
        Warning::TailPastRing { .. } => 2,
        Warning::EnabledBeforeRing { .. } => 3,
        Warning::DescriptorUnwritten { .. } => 4,
        Warning::StatusLeft { .. } => 5,
        Warning::InterruptsBeforeRings { .. } => 6,
        Warning::ReadAgain { .. } => 7,
        Warning::RingOutsideMemory { .. } => 8,
        Warning::BuffersOverlap { .. } => 9,
        Warning::TailPastHead { .. } => 10,
        Warning::HeadWhileEnabled { .. } => 11,
        Warning::WrittenWhileOwned { .. } => 12,
    }
}

/// A warning's numbers.
fn numbers_of(warning: Warning) -> EmWarning
    ensures { result ≡ the.numbers_of warning }
{
    match warning {
        Warning::BitsDropped { reg, kept, written } => EmWarning {
            offset: reg.offset(),
            kept,
            written,
            ..BLANK
        },
        Warning::TailPastRing { tail, index, count } => of_tail(tail, index, count),
        Warning::EnabledBeforeRing { control, .. } => EmWarning {
            offset: control.offset(),
            ..BLANK
        },
        Warning::DescriptorUnwritten { tail, index, at } => at_descriptor(tail, index, at),
        Warning::StatusLeft { tail, index, at } => at_descriptor(tail, index, at),
        Warning::InterruptsBeforeRings { causes, length } => of_causes(length, causes),
        Warning::ReadAgain { causes } => of_causes(Reg::Icr, causes),
        Warning::RingOutsideMemory { tail, at } => at_descriptor(tail, 0, at),
        Warning::BuffersOverlap { tail, index, at } => at_descriptor(tail, index, at),
        Warning::TailPastHead { tail, index, count } => of_tail(tail, index, count),
        Warning::HeadWhileEnabled { head, .. } => EmWarning {
            offset: head.offset(),
            ..BLANK
        },
        Warning::WrittenWhileOwned { head, index, at } => at_descriptor(head, index, at),
    }
}

/// Of a rule that went by a tail.
fn of_tail(tail: Reg, index: u32, count: u32) -> EmWarning
    ensures { result ≡ record the.blank { offset = offset_of tail; index = index; count = count } }
{
    EmWarning {
        offset: tail.offset(),
        index,
        count,
        ..BLANK
    }
}

/// Of a rule that went by a descriptor.
fn at_descriptor(tail: Reg, index: u32, at: u128) -> EmWarning
    ensures { result ≡ record the.blank { offset = offset_of tail; index = index; address = address_told at } }
{
    EmWarning {
        offset: tail.offset(),
        index,
        address: address_told(at),
        ..BLANK
    }
}

/// Of a rule that went by causes.
fn of_causes(reg: Reg, causes: u32) -> EmWarning
    ensures { result ≡ record the.blank { offset = offset_of reg; causes = causes } }
{
    EmWarning {
        offset: reg.offset(),
        causes,
        ..BLANK
    }
}
