//! Why a transmit step is idle.
ghost use Rattle.std.specs.Prelude.{◌≡◌, ◌↔◌, IsSome};
ghost use Rattle.em_reasons.specs.Table.{first_of};
ghost use Rattle.em_reasons.specs.TxIdle.{IsIdleSending, tx_idle, tx_idle_table};

use em_journal::Machine;
use em_regs::TxSetup;

/// Why a transmit step is idle. The tests are made in this order, and the first that holds is the reason.
#[derive(Clone, Copy, Debug, PartialEq, Eq)]
pub enum TxIdle {
    /// TCTL.EN is clear.
    Disabled,
    /// The ring has no descriptor: TDLEN is 0.
    NoRing,
    /// TDH is at the ring's count or past it.
    HeadPast { head: u32, count: u32 },
    /// TDT is at the ring's count or past it.
    TailPast { tail: u32, count: u32 },
    /// No descriptor is the adapter's: TDH and TDT are the same.
    Empty { at: u32 },
    /// The link is down, and RCTL.LBM gives nothing back (the second profile).
    LinkDown,
}

/// Why a transmit step of the machine would be idle, or was: an idle step changes nothing. None where it would not be.
pub fn why_tx_idle(machine: &Machine) -> Option<TxIdle>
    ensures first { result ≡ tx_idle machine.now.present }
    ensures idle { IsSome result ↔ IsIdleSending machine.now.present }
{
    let ring = machine.ring_tx();
    first_reason(&ring, machine.is_halted())
}

/// The first test that holds, of a ring, and of whether sending is halted.
fn first_reason(ring: &TxSetup, halted: bool) -> Option<TxIdle>
    ensures { result ≡ first_of (tx_idle_table ring.now halted) }
{
    if !ring.enabled {
        return Some(TxIdle::Disabled);
    }
    if ring.count == 0 {
        return Some(TxIdle::NoRing);
    }
    if ring.head >= ring.count {
        return Some(TxIdle::HeadPast {
            head: ring.head,
            count: ring.count,
        });
    }
    if ring.tail >= ring.count {
        return Some(TxIdle::TailPast {
            tail: ring.tail,
            count: ring.count,
        });
    }
    if ring.head == ring.tail {
        return Some(TxIdle::Empty { at: ring.head });
    }
    if halted {
        return Some(TxIdle::LinkDown);
    }
    None
}
