//! When it is asked which event it was.
ghost use Rattle.std.specs.Prelude.{◌≡◌, false, Option, Result};
ghost use Rattle.em_step.specs.Event.{Event};
ghost use Rattle.em_step.specs.State.{State};
ghost use Rattle.em_step.specs.declared.event.Answer.{Answer};
ghost use Rattle.em_step.specs.declared.refusal.Refusal.{Refusal};
ghost use Rattle.em_explain.specs.declared.why.Why.{Why};
ghost use Rattle.em_explain.specs.Undone.{is_undone, undone_of};
ghost use Rattle.em_explain.specs.Why.{IsWhyOf};

/// Of an event that did something there is no reason, whichever event it was: so it need not be known.
pub fn only_what_did_nothing_is_asked()
    ensures { (s : State) (event other : Option Event) (came : Option (Result Answer Refusal)) (why : Option Why)
        → is_undone came ≡ false → IsWhyOf s event (undone_of came) why → IsWhyOf s other (undone_of came) why }
{}
