//! What is wrong with a capture.

use thiserror::Error;

/// What is wrong with a capture.
#[derive(Clone, Copy, Debug, PartialEq, Eq, Error)]
pub enum FaultKind {
    /// The file begins with no magic number that is known, or a section with no byte-order magic.
    #[error("the magic number is not known")]
    Magic,
    /// The major version is not 2 in a classic file, or not 1 in a section of a pcapng file.
    #[error("the version is not known")]
    Version,
    /// The file ends within a header, a record or a block.
    #[error("the file is cut short")]
    CutShort,
    /// A block's length is shorter than its fields or no multiple of 4, or its copy at the block's end differs.
    #[error("the block's length is wrong")]
    BlockLength,
    /// The link type is not Ethernet.
    #[error("the link type is not Ethernet")]
    LinkType,
    /// A packet has more captured octets than the snap length allows, or than its block holds.
    #[error("the captured length is too large")]
    CapturedLength,
    /// A packet is of an interface that was not described in its section.
    #[error("the interface is not described")]
    NoInterface,
}

/// The first fault of a capture, and where it is.
#[derive(Clone, Copy, Debug, PartialEq, Eq, Error)]
#[error("octet {offset}: {kind}")]
pub struct CaptureFault {
    pub kind: FaultKind,
    /// The offset in the file of the header, the record or the block that has the fault.
    pub offset: usize,
}

/// Why no more packets come.
#[derive(Clone, Copy, Debug, PartialEq, Eq, Error)]
pub enum CaptureError {
    /// The file has a fault.
    #[error("{0}")]
    Fault(CaptureFault),
    /// Memory was refused for what an interface description says.
    #[error("memory was refused")]
    Memory,
}
