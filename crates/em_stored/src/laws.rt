//! What the form of a machine says of the machine.
ghost use Rattle.std.specs.Prelude.{◌≡◌, ◌<◌, ◌^◌, ℕ, None, length};
ghost use Rattle.em_step.specs.State.{State};
ghost use Rattle.em_stored.specs.Machines.{IsMachine};
ghost use Rattle.em_stored.specs.Stored.{stored};
ghost use Rattle.em_stored.specs.Tests.{fault_of};

/// What was stored is the machine that is loaded: the same octets are stored of one machine alone, with one budget and
/// one number of frames that were handed over. Nothing of its state is left open.
pub fn a_stored_machine_is_one()
    ensures { (h b : ℕ) (s : State) (k c : ℕ) (t : State) → IsMachine b s → IsMachine c t → h < 2 ^ 64 → k < 2 ^ 64
        → length (stored h b s) < 2 ^ 64 → stored h b s ≡ stored k c t → (h ≡ k) × (b ≡ c) × (s ≡ t) }
{}

/// What was stored passes each test of its front and end, so that `load` refuses it as `Value` or `Memory` at most.
pub fn a_stored_machine_has_no_fault()
    ensures { (h b : ℕ) (s : State) → length (stored h b s) < 2 ^ 64 → fault_of (stored h b s) ≡ None }
{}
