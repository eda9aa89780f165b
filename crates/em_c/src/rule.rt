//! The rules by which an event does nothing, each with a number.
ghost use Rattle.std.specs.Prelude.{◌≡◌};
ghost use Rattle.em_c.specs.Rule.{number_of};

/// By which rule an event did nothing. The rules of a step, of a frame and of what is refused are asked in the order in
/// which they stand here, but those from 32 on: FrameControl is asked with FrameUnicast, FrameCfi and FramePause behind
/// FrameVlan, and TxLinkDown behind TxEmpty. The first that holds is the reason.
#[derive(Clone, Copy)]
pub enum Rule {
    /// None: the event did something.
    NoRule = 0,
    /// A receive step was idle: RCTL.EN is clear.
    RxDisabled = 1,
    /// A receive step was idle: the ring has no descriptor.
    RxNoRing = 2,
    /// A receive step was idle: RDH is past the ring.
    RxHeadPast = 3,
    /// A receive step was idle: RDT is past the ring.
    RxTailPast = 4,
    /// A receive step was idle: RDH and RDT are the same.
    RxEmpty = 5,
    /// A receive step was idle: no frame waits in the FIFO.
    RxNoFrame = 6,
    /// A transmit step was idle: TCTL.EN is clear.
    TxDisabled = 7,
    /// A transmit step was idle: the ring has no descriptor.
    TxNoRing = 8,
    /// A transmit step was idle: TDH is past the ring.
    TxHeadPast = 9,
    /// A transmit step was idle: TDT is past the ring.
    TxTailPast = 10,
    /// A transmit step was idle: TDH and TDT are the same.
    TxEmpty = 11,
    /// A frame was dropped: the link is down.
    FrameDown = 12,
    /// A frame was dropped: RCTL.EN is clear.
    FrameDisabled = 13,
    /// A frame was dropped: no filter has its destination, a unicast address.
    FrameUnicast = 14,
    /// A frame was dropped: no filter has its destination, the address of a group.
    FrameMulticast = 15,
    /// A frame was dropped: no filter has its destination, the broadcast address.
    FrameBroadcast = 16,
    /// A frame was dropped: it has fewer than 64 octets with the FCS.
    FrameUndersize = 17,
    /// A frame was dropped: it has more octets with the FCS than RCTL.LPE allows, or in the second profile LPE and SBP.
    FrameOversize = 18,
    /// A frame was dropped: its VLAN is not in VFTA.
    FrameVlan = 19,
    /// A frame was dropped: the FIFO has no room for it.
    FrameMissed = 20,
    /// An access was refused: no register lies at the offset.
    NoRegister = 21,
    /// A memory write was refused: its octets leave guest memory.
    WriteRange = 22,
    /// A memory write was refused: it has no octet, or more than 16,384.
    WriteLength = 23,
    /// A frame was refused: it has fewer than 14 octets, or more than 20,000.
    FrameLength = 24,
    /// A receive step was refused: the descriptor at RDH leaves guest memory.
    RxDescriptor = 25,
    /// A receive step was refused: what is to go into the buffer of the descriptor at RDH leaves guest memory.
    RxBuffer = 26,
    /// A transmit step was refused: the descriptor at TDH leaves guest memory.
    TxDescriptor = 27,
    /// A transmit step was refused: the descriptor at TDH is extended (DEXT).
    TxExtended = 28,
    /// A transmit step was refused: the buffers of the frame hold more than 16,380 octets together, or in the second
    /// profile one of them more than 16,288.
    TxTooLong = 29,
    /// A transmit step was refused: the buffer of the descriptor at TDH leaves guest memory.
    TxBuffer = 30,
    /// An event was refused: the host gave no memory.
    Memory = 31,
    /// A frame was dropped: it is a MAC control frame, no filter has its destination, and RCTL.PMCF is clear.
    FrameControl = 32,
    /// A frame was dropped: the CFI of its tag is not RCTL.CFI.
    FrameCfi = 33,
    /// A frame was dropped: it is a pause frame, and RCTL.DPF is set.
    FramePause = 34,
    /// A transmit step was idle: the link is down, and RCTL.LBM is 0.
    TxLinkDown = 35,
}

impl Rule {
    /// The number of the rule.
    pub fn number(self) -> u32
        ensures { result ≡ number_of self }
    {
        self as u32
    }
}
