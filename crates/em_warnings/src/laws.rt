//! What the search for a flaw finds, and when rules are asked.
ghost use Rattle.std.specs.Prelude.{◌≡◌, ◌<◌, ℕ, true, false, List, Option, Some, None, Result};
ghost use Rattle.em_inspect.specs.declared.extent.Extent.{Extent};
ghost use Rattle.em_inspect.specs.declared.ring.SidedRing.{SidedRing};
ghost use Rattle.em_warnings.specs.Owned.{first_written, is_written};
ghost use Rattle.em_journal.specs.View.{View};
ghost use Rattle.em_regs.specs.declared.ring.Ring.{Ring};
ghost use Rattle.em_step.specs.Event.{Event};
ghost use Rattle.em_step.specs.declared.event.Answer.{Answer};
ghost use Rattle.em_step.specs.declared.refusal.Refusal.{Refusal};
ghost use Rattle.em_warnings.specs.Descriptors.{first_flawed, is_flawed};
ghost use Rattle.em_warnings.specs.Warnings.{found_of, is_asked};
ghost use Rattle.em_warnings.specs.declared.flaw.Flaw.{Flaw};

/// A descriptor that is found has the flaw: it is the adapter's, lies in guest memory, and its octets have it, with no
/// excuse. Where none is found, no descriptor of the ring has it.
pub fn flaws_are_found()
    ensures found { (r : Ring) (v : View) (flaw : Flaw) (i : ℕ) → first_flawed r v flaw ≡ Some i
        → is_flawed r v flaw i ≡ true }
    ensures none { (r : Ring) (v : View) (flaw : Flaw) → first_flawed r v flaw ≡ None
        → (i : ℕ) → i < r.count → is_flawed r v flaw i ≡ false }
{}

/// A descriptor that is found to be written while it is the adapter's is the adapter's, and octets of it or of its buffer are
/// written. Where none is found, no descriptor of the ring is written so.
pub fn written_descriptors_are_found()
    ensures found { (base : ℕ) (memory : List ℕ) (write : Extent) (r : SidedRing) (i : ℕ)
        → first_written base memory write r ≡ Some i → is_written base memory write r i ≡ true }
    ensures none { (base : ℕ) (memory : List ℕ) (write : Extent) (r : SidedRing)
        → first_written base memory write r ≡ None → (i : ℕ) → i < r.setup.count
        → is_written base memory write r i ≡ false }
{}

/// Where the rules are not asked, nothing is found, whatever the event was.
pub fn nothing_is_found_unasked()
    ensures { (v : View) (event : Option Event) (came : Option (Result Answer Refusal)) → is_asked came ≡ false
        → found_of v event came ≡ None }
{}
