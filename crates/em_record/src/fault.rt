//! Why a record ends before its script does.

use em_script::BenchFault;
use em_text::WriteFailed;
use std::alloc::AllocError;

/// Why a record ends before its script does.
#[derive(Clone, Copy)]
pub enum RecordFault {
    /// The record could not be written, a line is too long, or memory was refused.
    Bench(BenchFault),
    /// This line performed more events than the journal then holds.
    JournalTooSmall(usize),
}

impl From<BenchFault> for RecordFault {
    fn from(fault: BenchFault) -> RecordFault {
        RecordFault::Bench(fault)
    }
}

impl From<WriteFailed> for RecordFault {
    fn from(_: WriteFailed) -> RecordFault {
        RecordFault::Bench(BenchFault::Write)
    }
}

impl From<AllocError> for RecordFault {
    fn from(_: AllocError) -> RecordFault {
        RecordFault::Bench(BenchFault::Memory)
    }
}
