//! A machine made again of what was written down.
ghost use Rattle.std.specs.Prelude.{◌≡◌, ◌<◌, ◌^◌, ◌⊎◌, ℕ, IfErr, IfOk, None, Some, Err};
ghost use Rattle.em_journal.specs.View.{opening};
ghost use Rattle.em_step.specs.State.{State};
ghost use Rattle.em_stored.specs.Machines.{IsMachine};
ghost use Rattle.em_stored.specs.Stored.{stored};
ghost use Rattle.em_stored.specs.Tests.{fault_of};
ghost use Rattle.em_stored.specs.declared.refusal.StoredRefusal.{StoredRefusal as Refusal};

use crate::form::{BACK, FRONT};
use crate::front::fault_of;
use crate::known::number_fits;
use crate::machine::read_machine;
use crate::refusal::StoredRefusal;
use crate::storing::store;
use em_journal::Machine;
use std::alloc::Global;

/// The machine that these octets are, with an empty journal, and how many of its frames were handed over.
///
/// Refused as Magic, Version, Length or Sum, in this order; then as Value where no machine is stored so, and as Memory.
pub fn load(alloc: Global, octets: &[u8]) -> Result<(Machine, u64), StoredRefusal>
    ensures stored { IfOk result (λ made. octets.now ≡ stored made.1 made.0.budget made.0.present) }
    ensures same { (h b : ℕ) (s : State) → h < 2 ^ 64 → IsMachine b s → octets.now ≡ stored h b s
        → IfOk result (λ made. (made.1 ≡ h) × (made.0.budget ≡ b) × (made.0.present ≡ s)) }
    ensures machine { IfOk result (λ made. made.0 ≡ opening made.0.budget made.0.present) }
    ensures fault { (fault : Refusal) → fault_of octets.now ≡ Some fault → result ≡ Err fault }
    ensures others { fault_of octets.now ≡ None
        → IfErr result (λ e. (e ≡ StoredRefusal.Value) ⊎ (e ≡ StoredRefusal.Memory)) }
{
    if let Some(fault) = fault_of(octets) {
        return Err(fault);
    }
    // what is read has no fault but these two
    let (machine, handed) = match read_machine(alloc, &octets[FRONT..octets.len() - BACK]) {
        Ok(made) => made,
        Err(StoredRefusal::Memory) => return Err(StoredRefusal::Memory),
        Err(_) => return Err(StoredRefusal::Value),
    };
    number_fits(handed);
    // what is not spelled as it is stored is refused
    let again = store(alloc, &machine, handed)?;
    if again.as_slice() != octets {
        return Err(StoredRefusal::Value);
    }
    Ok((machine, handed))
}
