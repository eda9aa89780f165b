//! Logs of register accesses, line by line: QEMU's trace of memory regions, Linux's mmiotrace, and lines that a driver
//! prints itself.
//!
//! [`Log`] reads such lines, whatever octets they have, and says of each whether it is an access of the adapter's
//! registers. Lines have no newline at their end. Nothing here takes memory.
#![tactic(auto)]

mod field;
mod likeness;
mod log;
mod mmiotrace;
mod number;
mod plain;
mod qemu;
mod stamp;
mod told;

pub use likeness::looks_like_access;
pub use log::{Entry, Form, Log, RegisterAccess};
pub use plain::{MemoryWrite, memory_written};
pub use stamp::printed_stamp;
pub use told::{Way, Width};
