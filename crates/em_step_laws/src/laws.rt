//! What the definitions of steps say together, beyond what any crate above the adapter rests on.
ghost use Rattle.std.specs.Prelude.{◌≡◌, ◌<◌, ◌≤◌, ◌∷◌, ℕ, List, All};
ghost use Rattle.em_regs.specs.Storage.{Registers};
ghost use Rattle.em_regs.specs.Setup.{rx_setup};
ghost use Rattle.em_rx.specs.Frame.{Frame};
ghost use Rattle.em_rx.specs.Pieces.{GoesInPieces, IsDelivered};
ghost use Rattle.em_step.specs.State.{State};
ghost use Rattle.em_step.specs.Engines.{rx_control};
ghost use Rattle.em_step.specs.Event.{Event};
ghost use Rattle.em_step.specs.Arrival.{arrival};
ghost use Rattle.em_regs.specs.declared.profile.Profile.{Profile};
ghost use Rattle.em_step.specs.Cells.{fresh_as, shows};
ghost use Rattle.em_step.specs.Step.{step};
ghost use Rattle.em_step.specs.declared.event.Answer.{Answer};
ghost use Rattle.em_journal.specs.History.{Call, Leads};
ghost use Rattle.em_journal.specs.View.{View, states};
ghost use Rattle.em_step_laws.specs.Fate.{IsFate};
ghost use Rattle.em_step_laws.specs.Inert.{AgreeInRules, Alike, IsNoRead};
ghost use Rattle.em_step_laws.specs.Pieces.{AreReceived};
ghost use Rattle.em_step_laws.specs.Reached.{IsReached};

/// Each arrival has one fate: the conditions of its answer hold, and those of no other answer do.
pub fn fates()
    ensures one { (s : State) (f : List ℕ) → IsFate s f (arrival s f).0 }
    ensures alone { (s : State) (f : List ℕ) (a : Answer) → IsFate s f a → (arrival s f).0 ≡ a }
{}

/// A frame that goes in j pieces is in its buffers after j receive steps with nothing between them:
/// each piece in its own, as its descriptor says, and the frame has left the FIFO.
pub fn pieces()
    ensures { (s : State) (frame : Frame) (frames : List Frame) (j : ℕ) →
        IsReached s →
        GoesInPieces (rx_control s) s.base s.memory frame j →
        s.fifo ≡ record { frames = frame ∷ frames; taken = 0 } →
        (t : State) × AreReceived j s t
        × (t.fifo ≡ record { frames = frames; taken = 0 })
        × ((i : ℕ) → i < j → IsDelivered (rx_control s) s.memory t.memory frame j i) }
{}

/// In every state that an adapter comes to, RDH can name each descriptor of the receive ring.
pub fn rings_are_small()
    ensures { (s : State) → IsReached s → (rx_setup s.registers).count ≤ 65_536 }
{}

/// Every state that a machine with a new adapter comes to is reached, after any of its calls, and so is
/// each that steps back lead to: the laws of such states hold of them.
pub fn machines_are_reached()
    ensures { (profile : Profile) (budget base size : ℕ) (eeprom : List ℕ) (calls : List Call) (v : View)
        → Leads budget (shows (fresh_as profile base size eeprom)) calls v → All IsReached (states v) }
{}

/// Registers and bits without a rule are inert: what they hold changes no answer of any event but a
/// read's, no refusal, and nothing else that an event leaves. `AgreeInRules` lists those that have one.
pub fn registers_without_a_rule_are_inert()
    ensures { (s : State) (n : Registers) (e : Event) → AgreeInRules s.registers n → IsNoRead e
        → Alike (step s e) (step (record s { registers = n }) e) }
{}
