//! What the definitions of a machine's view say together.
ghost use Rattle.std.specs.Prelude.{◌≡◌, ◌<◌, ◌≤◌, ◌↔◌, ◌^◌, ℕ, List, [], ◌∷◌, ◌++◌, length, take, sum, slice_get};
ghost use Rattle.em_step.specs.State.{State};
ghost use Rattle.em_step.specs.Event.{Event};
ghost use Rattle.em_step.specs.Step.{step, Refuses};
ghost use Rattle.em_step.specs.Cells.{Cells, MorePages};
ghost use Rattle.em_step.specs.declared.event.Answer.{Answer};
ghost use Rattle.em_step.specs.declared.refusal.Refusal.{Refusal};
ghost use Rattle.em_step.specs.Undo.{Undo};
ghost use Rattle.em_journal.specs.Records.{back_through, AllFit};
ghost use Rattle.em_journal.specs.View.{View, states, reach};
ghost use Rattle.em_journal.specs.History.{Call, performs, refuses, Run, Leads};
ghost use Rattle.em_journal.specs.History.{state, kept_events, held_costs, without_last};

use crate::Machine;

/// The law of the view: after any calls, item i of what a machine shows is the state that the
/// events which were performed and not taken back lead to, without the last i of them. It can go
/// back as often as costs are held, and a step back is refused exactly where none is.
pub fn view_is_fold()
    ensures states { (budget : ℕ) (s : State) (calls : List Call) (v : View) → Leads budget s calls v
        → (i : ℕ) → i < length (states v)
        → slice_get (states v) i ≡ Some (state s (without_last i (kept_events calls))) }
    ensures costs { (budget : ℕ) (s : State) (calls : List Call) (v : View) → Leads budget s calls v
        → v.costs ≡ held_costs budget s calls }
    ensures reach { (budget : ℕ) (s : State) (calls : List Call) (v : View) → Leads budget s calls v
        → length v.past ≡ length (held_costs budget s calls) }
    ensures empty { (budget : ℕ) (s : State) (calls : List Call) (v : View) → Leads budget s calls v
        → (v.past ≡ []) ↔ (held_costs budget s calls ≡ []) }
{}

/// The law of the answers: each answer among any calls, and each refusal, is the table's in the
/// state that the events lead to which were performed before it and not taken back.
pub fn answers_are_the_table()
    ensures answers { (budget : ℕ) (s : State) (calls rest : List Call) (e : Event) (answer : Answer) (v : View)
        → Leads budget s (calls ++ performs e answer ∷ rest) v
        → (t : State) × (step (state s (kept_events calls)) e ≡ Ok (answer, t)) }
    ensures refusals { (budget : ℕ) (s : State) (calls rest : List Call) (e : Event) (refusal : Refusal) (v : View)
        → Leads budget s (calls ++ refuses e refusal ∷ rest) v
        → Refuses (state s (kept_events calls)) e refusal }
{}

/// Two lists of calls, one after the other, are one list of calls: so what each call says that it
/// does makes a run of any list of them.
pub fn runs_join()
    ensures { (u v w : View) (calls more : List Call) → Run u calls v → Run v more w → Run u (calls ++ more) w }
{}

/// What is kept costs no more than the budget, and no longer list from the newest on does so too.
pub fn reach_is_most()
    ensures within { (budget : ℕ) (costs : List ℕ) → sum (take (reach budget costs) costs) ≤ budget }
    ensures most { (budget k : ℕ) (costs : List ℕ) → k ≤ length costs → sum (take k costs) ≤ budget
        → k ≤ reach budget costs }
{}

/// More made pages change no state that records lead back to, and leave each record fitting.
pub fn made_pages()
    ensures { (c d : Cells) (records : List Undo) → MorePages c d → AllFit c records
        → AllFit d records × (back_through d records ≡ back_through c records) }
{}

/// Guest memory ends before address 2^64, so that what lies past that leaves it.
#[inline(always)]
pub fn addresses_are_small(machine: &Machine)
    ensures { length machine.now.present.memory < 2 ^ 64 }
{
    machine.memory_end();
}
