//! What a line says, with the octets that it brings.
ghost use Rattle.std.specs.Prelude.{◌≡◌, IfOk, OnErr, IsTrue};
ghost use Rattle.std.specs.Option.{option_map};
ghost use Rattle.em_step.specs.Event.{plain as plain_event};
ghost use Rattle.em_text.specs.Words.{words_of};
ghost use Rattle.em_line.specs.Arguments.{arguments_of};
ghost use Rattle.em_line.specs.Grammar.{arrive_form, parsed_line, poke_form, turns_form};
ghost use Rattle.em_line.specs.ParsedLine.{event_in, request_line, says, takes_memory};
ghost use Rattle.em_line.specs.Command.{plain as plain_command};
ghost use Rattle.em_line.specs.Request.{asked_form};
ghost use Rattle.em_line.specs.Said.{plain};

use crate::command::Command;
use crate::form::{LineForm, form_of};
use crate::frame::{data_words_into, frame_words_into};
use crate::plan::{are_turns, made_of};
use crate::request::{Request, asked_form};
use crate::request_name::RequestName;
use em_step::Event;
use em_text::Words;
use em_turn::Turn;
use std::alloc::{AllocError, Global};
use std::collections::VecDeque;

/// What a line says, with the octets that it brings.
#[derive(Drop)]
pub enum Said {
    /// Nothing: the line has no word, or is a comment.
    Silent,
    /// It has no form.
    Bad,
    /// A command that brings no octets.
    Command(Command<'static>),
    /// Software writes octets to guest memory, from an address on.
    Poke(u64, Vec<u8>),
    /// The wire brings a frame.
    Arrive(Vec<u8>),
    /// Something is asked of a driver.
    Request(Request),
    /// The turns of other actors to come.
    Plan(VecDeque<Vec<Turn>>),
}

impl Said {
    ghost use Rattle.std.specs.Prelude.{◌≡◌};
    ghost use Rattle.std.specs.Option.{option_map};
    ghost use Rattle.em_step.specs.Event.{plain as plain_event};
    ghost use Rattle.em_line.specs.ParsedLine.{event_in};
    ghost use Rattle.em_line.specs.Said.{plain};

    /// The event that the line says, if it says one.
    pub fn event(&self) -> Option<Event<'_>>
        ensures { option_map plain_event result ≡ event_in (plain self.now) }
    {
        match self {
            Said::Command(command) => event_of(*command),
            Said::Poke(addr, octets) => Some(Event::Poke(*addr, octets.as_slice())),
            Said::Arrive(octets) => Some(Event::Arrive(octets.as_slice())),
            Said::Silent | Said::Bad | Said::Request(_) | Said::Plan(_) => None,
        }
    }
}

/// The event that a command is, if it is one.
fn event_of(command: Command<'_>) -> Option<Event<'_>>
    ensures { option_map plain_event result ≡ event_in (says (plain_command command.entry)) }
{
    match command {
        Command::Event(event) => Some(event),
        Command::Peek(..) | Command::Look(_) | Command::Back | Command::BackBy(_) => None,
    }
}

/// What a text says. Memory is taken for the octets that it brings, and for a plan.
pub(crate) fn said_of(alloc: Global, text: &[u8]) -> Result<Said, AllocError>
    ensures value { IfOk result (λ said. plain said ≡ parsed_line text.now) }
    ensures memory { OnErr result (IsTrue (takes_memory (parsed_line text.now))) }
{
    match form_of(text) {
        LineForm::Silent => Ok(Said::Silent),
        LineForm::Bad => Ok(Said::Bad),
        LineForm::Command(command) => Ok(Said::Command(command)),
        LineForm::Poke(words) => poke_said(alloc, words),
        LineForm::Arrive(words) => arrive_said(alloc, words),
        LineForm::Request(name, words) => request_said(alloc, name, words),
        LineForm::Plan(words) => plan_said(alloc, words),
    }
}

/// poke ADDR DATA
fn poke_said(alloc: Global, mut words: Words<'_>) -> Result<Said, AllocError>
    ensures value { IfOk result (λ said. plain said ≡ poke_form (arguments_of (words_of words.entry.0.now))) }
    ensures memory { OnErr result (IsTrue (takes_memory (poke_form (arguments_of (words_of words.entry.0.now))))) }
{
    let Some(addr) = words.hex_address() else {
        return Ok(Said::Bad);
    };
    let mut octets = Vec::new(alloc);
    if data_words_into(&mut octets, words)? {
        Ok(Said::Poke(addr, octets))
    } else {
        Ok(Said::Bad)
    }
}

/// arrive DATA, or arrive DATA LEN
fn arrive_said(alloc: Global, words: Words<'_>) -> Result<Said, AllocError>
    ensures value { IfOk result (λ said. plain said ≡ arrive_form (arguments_of (words_of words.entry.0.now))) }
    ensures memory { OnErr result (IsTrue (takes_memory (arrive_form (arguments_of (words_of words.entry.0.now))))) }
{
    let mut octets = Vec::new(alloc);
    if frame_words_into(&mut octets, words)? {
        Ok(Said::Arrive(octets))
    } else {
        Ok(Said::Bad)
    }
}

/// What is asked of a driver by a name and the words behind it.
fn request_said(alloc: Global, name: RequestName, words: Words<'_>) -> Result<Said, AllocError>
    ensures value { IfOk result (λ said.
        plain said ≡ request_line (asked_form name (arguments_of (words_of words.entry.0.now)))) }
    ensures memory { OnErr result (IsTrue (takes_memory (request_line
        (asked_form name (arguments_of (words_of words.entry.0.now)))))) }
{
    let mut octets = Vec::new(alloc);
    let mut packets = VecDeque::new(alloc);
    match asked_form(alloc, name, words, &mut octets, &mut packets)? {
        Some(request) => Ok(Said::Request(request)),
        None => Ok(Said::Bad),
    }
}

/// turns WORD ..
fn plan_said(alloc: Global, words: Words<'_>) -> Result<Said, AllocError>
    ensures value { IfOk result (λ said. plain said ≡ turns_form (words_of words.entry.0.now)) }
    ensures memory { OnErr result (IsTrue (takes_memory (turns_form (words_of words.entry.0.now)))) }
{
    let mut others = words;
    if others.next().is_none() {
        return Ok(Said::Bad);
    }
    if !are_turns(words) {
        return Ok(Said::Bad);
    }
    Ok(Said::Plan(made_of(alloc, words)?))
}
