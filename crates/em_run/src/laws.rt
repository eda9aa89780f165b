//! What kept runs lead to.
ghost use Rattle.std.specs.Prelude.{◌≡◌, ◌<◌, ◌^◌, ℕ, List};
ghost use Rattle.em_eeprom.specs.Eeprom.{IsEeprom};
ghost use Rattle.em_text.specs.Lines.{lines_of};
ghost use Rattle.em_journal.specs.History.{Leads};
ghost use Rattle.em_journal.specs.View.{View, opening};
ghost use Rattle.em_regs.specs.declared.profile.Profile.{Profile};
ghost use Rattle.em_step.specs.Cells.{fresh_as, shows};
ghost use Rattle.em_run.specs.KeptRun.{AreTyped, Kept, PlaysTheSame, calls_of_run, file_text};

/// The text that is kept of a run, head and all, played line by line from what it says that the machine was made of: it
/// leads to the machine that the run led to, with the same states to go back to, and each line is answered as it says.
pub fn a_kept_run_plays_the_same()
    ensures { (run : List Kept) (profile : Profile) (base memory budget : ℕ) (words : List ℕ) (w : View) → AreTyped run
        → memory < 2 ^ 64 → budget < 2 ^ 64 → IsEeprom words
        → Leads budget (shows (fresh_as profile base memory words)) (calls_of_run run) w
        → PlaysTheSame (lines_of (file_text profile base memory budget words run))
        (opening budget (shows (fresh_as profile base memory words))) w }
{}
