//! The warnings, each by the rule that gives it.

use em_regs::Reg;

/// What a driver seems to get wrong by an access of a register, with the numbers of the rule that says so.
#[derive(Clone, Copy, Debug, PartialEq, Eq)]
pub enum Warning {
    /// `bits-dropped`: the register keeps only these bits of what was written.
    BitsDropped { reg: Reg, kept: u32, written: u32 },
    /// `tail-past-ring`: the tail is at the ring's count of descriptors or past it.
    TailPastRing { tail: Reg, index: u32, count: u32 },
    /// `enabled-before-ring`: EN is set in RCTL or TCTL while the ring's length is 0.
    EnabledBeforeRing { control: Reg, length: Reg },
    /// `descriptor-unwritten`: the adapter owns a descriptor, at this address (octets), that is all zeros.
    DescriptorUnwritten { tail: Reg, index: u32, at: u128 },
    /// `status-left`: the adapter owns a descriptor, at this address (octets), whose status has DD; of a transmit
    /// descriptor, one that was not written since.
    StatusLeft { tail: Reg, index: u32, at: u128 },
    /// `interrupts-before-rings`: these causes of a ring are let through while the ring's length is 0.
    InterruptsBeforeRings { causes: u32, length: Reg },
    /// `ring-outside-memory`: the adapter owns descriptors of a ring that begins at this address, and leaves guest memory.
    RingOutsideMemory { tail: Reg, at: u128 },
    /// `buffers-overlap`: the adapter is given a receive descriptor, at this address (octets), whose buffer lies over that
    /// of another one.
    BuffersOverlap { tail: Reg, index: u32, at: u128 },
    /// `tail-past-head`: the tail went past the head, so that the adapter has fewer descriptors than it was given.
    TailPastHead { tail: Reg, index: u32, count: u32 },
    /// `head-while-enabled`: the head is moved by the driver while EN is set in RCTL or TCTL.
    HeadWhileEnabled { head: Reg, control: Reg },
    /// `written-while-owned`: octets were written that are the adapter's: of this descriptor, at this address (octets),
    /// or of its buffer.
    WrittenWhileOwned { head: Reg, index: u32, at: u128 },
    /// `read-again`: a read of ICR gave 0, since an earlier event cleared these causes there, and the frame still waits.
    ReadAgain { causes: u32 },
}
