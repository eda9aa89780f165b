//! A debugger: a tape of lines, and what was told so far.
ghost use Rattle.std.specs.Prelude.{◌≡◌, IfOk, IfErr, None, []};
ghost use Rattle.em_turn.specs.Planned.{lists};
ghost use Rattle.em_journal.specs.Settings.{new_machine, IsRefusedAs};
ghost use Rattle.em_script.specs.Session.{bare};
ghost use Rattle.em_tape.specs.Tape.{empty_tape};
ghost use Rattle.em_debugger.specs.Debugger.{Begins};

use crate::bookmarks::Bookmarks;
use crate::came::Came;
use crate::expected::Score;
use crate::sending::Sent;
use crate::told::Told;
use crate::warnings::Warnings;
use crate::who::Asked;
use em_journal::{Settings, SettingsRefusal};
use em_regs::Profile;
use em_tape::Tape;
use em_warnings::Found;
use std::alloc::Global;
use std::collections::VecDeque;

/// A session that one types into.
#[derive(Drop)]
pub struct Debugger {
    pub(crate) alloc: Global,
    pub(crate) settings: Settings,
    pub(crate) tape: Tape,
    // what the lines were answered
    pub(crate) told: Told,
    // how the lines came out
    pub(crate) came: Came,
    // the answer of the line that was performed last
    pub(crate) answer: Vec<u8>,
    // what the rules say of it that tell what drivers get wrong, if they are asked
    pub(crate) warned: Found,
    // what they said of the lines
    pub(crate) warnings: Warnings,
    // what was asked for last
    pub(crate) asked: Option<Asked>,
    // whether it is said what drivers get wrong
    pub(crate) warns: bool,
    // the answers that lines expect
    pub(crate) wanted: Told,
    // the lines as they stood that say where they come from, or when they were performed
    pub(crate) marks: Told,
    // which frames the lines sent that were performed
    pub(crate) sent: Sent,
    // how many were given so
    pub(crate) score: Score,
    // how many steps the engines may still make by themselves; none where they stand still
    pub(crate) engines: u32,
    // the frames of a capture that was loaded, each as a line that brings it
    pub(crate) offered: VecDeque<Vec<u8>>,
    // the places that have names
    pub(crate) bookmarks: Bookmarks,
}

impl Debugger {
    /// Over a new machine, without a line.
    pub fn new(alloc: Global, settings: Settings) -> Result<Debugger, SettingsRefusal>
        ensures ok { IfOk result (Begins settings) }
        ensures err { IfErr result (IsRefusedAs settings) }
    {
        match Tape::new(alloc, settings) {
            Ok(tape) => Ok(Debugger {
                alloc,
                settings,
                tape,
                told: Told::new(alloc),
                came: Came::new(alloc),
                answer: Vec::new(alloc),
                warned: None,
                warnings: Warnings::new(alloc),
                asked: None,
                warns: true,
                wanted: Told::new(alloc),
                marks: Told::new(alloc),
                sent: Sent::new(alloc),
                score: Score::none(),
                engines: 0,
                offered: VecDeque::new(alloc),
                bookmarks: Bookmarks::new(alloc),
            }),
            Err(refusal) => Err(refusal),
        }
    }

    /// Of which profile its machine is.
    pub fn profile(&self) -> Profile
        ensures { result ≡ self.now.settings.profile }
    {
        self.settings.profile
    }
}
