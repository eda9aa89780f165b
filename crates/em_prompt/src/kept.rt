//! Words as they are kept for em_bench.

use crate::word::ADDRESS_DIGITS;

/// A word as it is kept: what em_bench reads.
#[derive(Clone, Copy)]
pub(crate) enum Kept<'a> {
    /// These octets of the line.
    Word(&'a [u8]),
    /// The 8 digits of a register's offset, or of the value of its bits.
    Value(u32),
    /// The digits of an Ethernet address that had colons.
    Address([u8; ADDRESS_DIGITS]),
}

/// The words behind a name, as they are kept.
#[derive(Clone, Copy)]
pub(crate) enum KeptWords<'a> {
    None,
    One(Kept<'a>),
    Two(Kept<'a>, Kept<'a>),
    /// All that stands there, as it stands: a plan.
    Rest(&'a [u8]),
}
