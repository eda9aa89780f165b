//! The session that a run begins with.
ghost use Rattle.std.specs.Prelude.{◌≡◌, ◌≤◌, IfOk, IfErr, OnOk};
ghost use Rattle.em_journal.specs.Settings.{new_machine, AreAllowed};
ghost use Rattle.em_script.specs.Session.{bare};
ghost use Rattle.em_ending.specs.Ending.{EndsWithoutMachine};

use crate::ending::Ending;
use em_journal::Settings;
use em_mem::MOST_MEMORY;
use em_script::Session;
use std::alloc::Global;

/// A session over a new machine that is made of these settings, or how the program ends where there is none. It has at
/// most 16,777,216 octets of memory.
pub fn session(alloc: Global, settings: Settings) -> Result<Session, Ending>
    ensures ok { IfOk result (λ session. session ≡ bare (new_machine settings)) }
    ensures allowed { OnOk result (AreAllowed settings) }
    ensures few { OnOk result (settings.memory ≤ MOST_MEMORY) }
    ensures err { IfErr result (EndsWithoutMachine settings) }
{
    if settings.memory > MOST_MEMORY {
        return Err(Ending::Size);
    }
    match settings.machine(alloc) {
        Ok(machine) => Ok(Session::new(alloc, machine)),
        Err(refusal) => Err(refusal.into()),
    }
}
