//! What the event says that a search names, and how a file is read that was saved.
ghost use Rattle.std.specs.List.{AllByRecursion};
ghost use Rattle.std.specs.Prelude.{◌≡◌, ℕ, List, true};
ghost use Rattle.em_step.specs.State.{State};
ghost use Rattle.em_journal.specs.View.{opening};
ghost use Rattle.em_tape.specs.Tape.{HoldsTape, Tape};
ghost use Rattle.em_watch.specs.declared.watch.Watch.{Watch};
ghost use Rattle.em_debugger.specs.declared.search.Found.{Found};
ghost use Rattle.em_text.specs.Lines.{lines_of};
ghost use Rattle.em_debugger.specs.Files.{IsOneLine, script_of};
ghost use Rattle.em_debugger.specs.Led.{HasFound};
ghost use Rattle.em_debugger.specs.Search.{IsFoundIn};

/// The event that a search names led, by `step`, from the state shown before it to the state shown after it. It is the one
/// that its line performed in the place that is told, this line stands whole, and its note tells what it was. What is watched
/// was seen so before it and after it, and no newer event that stands changed it. This holds over the session's own tape, and
/// over each second tape that the search went on over.
pub fn the_found_event_led()
    ensures { (tape : Tape) (watch : Watch) (budget back : ℕ) (s : State) (found : Found) → HoldsTape tape
        → tape.answered ≡ true → tape.first.machine ≡ opening budget s → IsFoundIn tape watch back found
        → HasFound tape watch back found }
{}

/// A file that is saved is read as the lines that were saved, where no octet of a line ends it.
pub fn saved_lines_are_read()
    ensures { (lines : List (List ℕ)) → AllByRecursion IsOneLine lines → lines_of (script_of lines) ≡ lines }
{}
