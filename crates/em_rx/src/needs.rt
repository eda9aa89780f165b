//! Which octets of guest memory the next receive step reads, and which it writes (manual, chapter on packet reception:
//! legacy receive descriptor, write back).
ghost use Rattle.std.specs.Prelude.{◌≡◌};
ghost use Rattle.em_mem.specs.Needs.{AreHeld};
ghost use Rattle.em_rx.specs.Fifo.{shows};
ghost use Rattle.em_rx.specs.Needs.{needs};

use crate::descriptor::WRITTEN_OCTETS;
use crate::receive::fetch;
use crate::{Fifo, RxControl};
use em_mem::{GuestMemory, Needs, Range};
use em_regs::DESCRIPTOR_OCTETS;

impl Fifo {
    /// What the next step reads of guest memory, and what it writes there: it reads its descriptor, and writes the
    /// piece into the buffer and then the end of the descriptor. Where its buffer lies the descriptor's octets say, as
    /// they are in memory now. Where no octet goes into the buffer, the piece has none, and lies at the descriptor.
    pub fn needs(&self, memory: &GuestMemory, control: &RxControl) -> Needs
        ensures needs { result ≡ needs control.now memory.now.base memory.now.octets (shows self.now) }
        ensures reads { AreHeld memory.now.base memory.now.octets result.reads }
        ensures writes { AreHeld memory.now.base memory.now.octets result.writes }
    {
        if self.is_idle(control) {
            return Needs::nothing();
        }
        let Ok(found) = fetch(memory, &control.setup) else {
            return Needs::nothing();
        };
        let descriptor = Range {
            at: found.at,
            len: DESCRIPTOR_OCTETS as u64,
        };
        let piece = if control.is_null_at(found.buffer) {
            Range {
                at: found.at,
                len: 0,
            }
        } else {
            Range {
                at: found.buffer,
                len: control.setup.buffer.min(self.rest()) as u64,
            }
        };
        if !memory.holds(piece.at, piece.len) {
            return Needs::reads_only(descriptor);
        }
        let end = Range {
            at: found.end_at(),
            len: WRITTEN_OCTETS as u64,
        };
        Needs {
            reads: [descriptor, Range::none()],
            writes: [piece, end],
        }
    }
}
