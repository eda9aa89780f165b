//! What records say together.
ghost use Rattle.std.specs.Prelude.{◌≡◌, ℕ, ◌+◌, ◌≤◌, Some, List, length, drop, slice_get};
ghost use Rattle.em_step.specs.State.{State};
ghost use Rattle.em_journal.specs.History.{Call, Leads};
ghost use Rattle.em_journal.specs.View.{View, states};
ghost use Rattle.em_recording.specs.Run.{AreOfProfile, AreRecordsFrom, IsRecording, put_all_on, take_some_off};
ghost use Rattle.em_recording.specs.Shown.{shown_in};
ghost use Rattle.em_recording.specs.declared.recorded.Recorded.{Recorded};

/// The law of a recording: after any calls of a machine, the records of the events that stand lead from what was shown
/// at the start to what is shown now; without the newest k of them, to what is shown k steps back; and the newest k,
/// taken off again, lead there from what is shown now.
pub fn records_rebuild()
    ensures now { (budget : ℕ) (s : State) (calls : List Call) (v : View) (records : List Recorded)
        → IsRecording budget s calls v records → put_all_on records (shown_in s) ≡ shown_in v.present }
    ensures forward { (budget : ℕ) (s : State) (calls : List Call) (v : View) (records : List Recorded)
        → IsRecording budget s calls v records → (k : ℕ) (t : State) → slice_get (states v) k ≡ Some t
        → put_all_on (drop k records) (shown_in s) ≡ shown_in t }
    ensures backward { (budget : ℕ) (s : State) (calls : List Call) (v : View) (records : List Recorded)
        → IsRecording budget s calls v records → (k : ℕ) (t : State) → slice_get (states v) k ≡ Some t
        → take_some_off k records (shown_in v.present) ≡ shown_in t }
{}

/// No calls of a machine change its profile.
pub fn a_profile_stays()
    ensures { (budget : ℕ) (s : State) (calls : List Call) (v : View) → Leads budget s calls v → AreOfProfile s.profile v }
{}

/// The records of the newest events of a journal lead from what was shown before them to what is shown now, whatever
/// calls performed them: all its states are of one profile.
pub fn newest_records_rebuild()
    ensures { (v : View) (records : List Recorded) (first : State) → AreRecordsFrom v 0 records
        → slice_get (states v) (length records) ≡ Some first → AreOfProfile v.present.profile v
        → put_all_on records (shown_in first) ≡ shown_in v.present }
{}
