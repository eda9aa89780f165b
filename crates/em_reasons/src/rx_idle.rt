//! Why a receive step is idle.
ghost use Rattle.std.specs.Prelude.{◌≡◌, ◌↔◌, IsSome};
ghost use Rattle.em_reasons.specs.Table.{first_of};
ghost use Rattle.em_reasons.specs.RxIdle.{IsIdleReceiving, rx_idle, rx_idle_table};

use em_journal::Machine;
use em_regs::RxSetup;

/// Why a receive step is idle. The tests are made in this order, and the first that holds is the reason.
#[derive(Clone, Copy, Debug, PartialEq, Eq)]
pub enum RxIdle {
    /// RCTL.EN is clear.
    Disabled,
    /// The ring has no descriptor: RDLEN is 0.
    NoRing,
    /// RDH is at the ring's count or past it.
    HeadPast { head: u32, count: u32 },
    /// RDT is at the ring's count or past it.
    TailPast { tail: u32, count: u32 },
    /// No descriptor is the adapter's: RDH and RDT are the same.
    Empty { at: u32 },
    /// No frame waits in the FIFO.
    NoFrame,
}

/// Why a receive step of the machine would be idle, or was: an idle step changes nothing. None where it would not be.
pub fn why_rx_idle(machine: &Machine) -> Option<RxIdle>
    ensures first { result ≡ rx_idle machine.now.present }
    ensures idle { IsSome result ↔ IsIdleReceiving machine.now.present }
{
    let ring = machine.ring_rx();
    let frames = machine.frames();
    first_reason(&ring, frames)
}

/// The first test that holds, of a ring and so many frames in the FIFO.
fn first_reason(ring: &RxSetup, frames: usize) -> Option<RxIdle>
    ensures { result ≡ first_of (rx_idle_table ring.now frames) }
{
    if !ring.enabled {
        return Some(RxIdle::Disabled);
    }
    if ring.count == 0 {
        return Some(RxIdle::NoRing);
    }
    if ring.head >= ring.count {
        return Some(RxIdle::HeadPast {
            head: ring.head,
            count: ring.count,
        });
    }
    if ring.tail >= ring.count {
        return Some(RxIdle::TailPast {
            tail: ring.tail,
            count: ring.count,
        });
    }
    if ring.head == ring.tail {
        return Some(RxIdle::Empty { at: ring.head });
    }
    if frames == 0 {
        return Some(RxIdle::NoFrame);
    }
    None
}
