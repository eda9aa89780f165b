//! Captures of Ethernet frames, read from octets in memory and written to a writer.
//!
//! [`Capture`] reads classic pcap and pcapng files, and gives the packets up to the end or to the first fault. Nothing
//! is copied: a packet's octets are a slice of the file. [`write_capture`], or [`write_header`] and then
//! [`write_record`], writes a classic file whose times are in nanoseconds.
//!
//! Nothing takes memory but the descriptions of a pcapng file's interfaces.
#![tactic(auto)]

mod block;
mod capture;
mod classic;
mod cooked;
mod fault;
mod fcs;
mod form;
mod interface;
mod laws;
mod link;
mod order;
mod packet;
mod packet_block;
mod writer;

pub use capture::Capture;
pub use fault::{CaptureError, CaptureFault, FaultKind};
pub use laws::what_is_written_is_read;
pub use packet::{Cut, Packet};
pub use writer::{MOST_OCTETS, MOST_TIME, TimedFrame, write_capture, write_header, write_record};
