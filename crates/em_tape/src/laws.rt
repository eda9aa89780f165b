//! What the definitions of a place say together.
ghost use Rattle.std.specs.Prelude.{◌≡◌, ◌<◌, ◌≤◌, ℕ, List, false, true, length, slice_get, Some};
ghost use Rattle.std.specs.List.{AllByRecursion};
ghost use Rattle.em_line.specs.Grammar.{parsed_line};
ghost use Rattle.em_script.specs.Session.{Session};
ghost use Rattle.em_script.specs.Reply.{line_takes_memory};
ghost use Rattle.em_step.specs.State.{State};
ghost use Rattle.em_journal.specs.View.{opening, states};
ghost use Rattle.em_trail.specs.Trail.{TellsAt};
ghost use Rattle.em_trail.specs.declared.note.Note.{Note};
ghost use Rattle.em_named.specs.Names.{IsBefore};
ghost use Rattle.em_named.specs.declared.did.Name.{Name};
ghost use Rattle.em_tape.specs.Led.{HasLed, IsTold};
ghost use Rattle.em_tape.specs.Moves.{IsCut};
ghost use Rattle.em_tape.specs.OneState.{BeginAlike, IsKnownPlace, IsNewest, SameDriver};
ghost use Rattle.em_tape.specs.Tape.{HadMemory, HoldsTape, IsAt, Tape, event_of, session_at, standing};

/// The same place shows the same each time. Where memory was refused to no line on the way there, the session at a
/// place is a function of what the tape begins with, the lines that stand whole, and how many events are taken back.
/// Where no line takes memory, none is refused it.
pub fn a_place_shows_the_same()
    ensures had { (first now : Session) (lines : List (List ℕ)) (back : ℕ) (place : IsAt first lines back now)
        → HadMemory place.all → now ≡ session_at first lines back }
    ensures takes_none { (first now : Session) (lines : List (List ℕ)) (back : ℕ) → IsAt first lines back now
        → AllByRecursion (λ line. line_takes_memory (parsed_line line) ≡ false) lines
        → now ≡ session_at first lines back }
{}

/// The named event led, by `step`, from the state shown one step further back to the state shown there; its line stands
/// whole, so it is never of a line ahead. This holds of each event that the journal can still take back, where each answer
/// so far could be written. A note of the event so many steps back tells of one that led from the same state to the same
/// state. No two events that stand have the same name.
pub fn a_named_event_led()
    ensures led { (tape : Tape) (budget : ℕ) (s : State) (k : ℕ) → HoldsTape tape → tape.answered ≡ true
        → tape.first.machine ≡ opening budget s → k < length tape.session.machine.past
        → (name : Name) × HasLed tape k name }
    ensures told { (tape : Tape) (budget : ℕ) (s : State) (k : ℕ) (note : Note) → HoldsTape tape
        → tape.answered ≡ true → tape.first.machine ≡ opening budget s
        → TellsAt (states tape.session.machine) k note → (name : Name) × IsTold tape k name note }
    ensures once { (tape : Tape) (i j : ℕ) (newer older : Name) → i < j
        → slice_get (standing tape) i ≡ Some newer → slice_get (standing tape) j ≡ Some older
        → IsBefore older newer }
{}

/// An event names one state of the machine. Where it is the newest that stands, the same state is shown, on tapes that begin
/// with the same and have its line and those before it in common: whichever lines follow, and however the place was reached.
/// So `goto` of one number leads to one state: among the same lines, which did the same, an event has one number. Memory was
/// refused to none of the lines at the places, and the journals reach behind the event.
pub fn an_event_names_one_state()
    ensures named { (one other : Tape) (n : ℕ) (event : Name) → IsKnownPlace one → IsKnownPlace other
        → BeginAlike n one other → event.line ≤ n → IsNewest one event → IsNewest other event
        → one.session.machine.present ≡ other.session.machine.present }
    ensures numbered { (one other : Tape) (event : ℕ) → IsKnownPlace one → IsKnownPlace other
        → one.first ≡ other.first → one.lines ≡ other.lines → one.did ≡ other.did → 0 < event
        → event_of one ≡ event → event_of other ≡ event
        → one.session.machine.present ≡ other.session.machine.present }
{}

/// A cut leaves what is shown, from within a call of a driver too: the machine's state, by the event that is the newest which
/// stands; and whether a driver stands there, and its plan. Memory was refused to none of the lines at the places.
pub fn a_cut_shows_the_same()
    ensures state { (old new : Tape) (gone : ℕ) (event : Name) → IsCut old new gone → IsKnownPlace old
        → IsKnownPlace new → IsNewest old event → new.session.machine.present ≡ old.session.machine.present }
    ensures driver { (old new : Tape) (gone : ℕ) → IsCut old new gone → (here : HoldsTape old)
        → (there : HoldsTape new) → HadMemory here.place.all → HadMemory there.place.all
        → SameDriver old.session new.session }
{}
