//! The form of a line, by its name.
ghost use Rattle.std.specs.Prelude.{◌≡◌};
ghost use Rattle.std.specs.Option.{option_map};
ghost use Rattle.em_step.specs.Event.{plain as plain_event};
ghost use Rattle.em_text.specs.Words.{words_of};
ghost use Rattle.em_line.specs.Arguments.{arguments_of};
ghost use Rattle.em_line.specs.Command.{plain};
ghost use Rattle.em_line.specs.Form.{said_by};
ghost use Rattle.em_line.specs.Grammar.{command_form, look_form, named_form, parsed_line};
ghost use Rattle.em_line.specs.Request.{request_form};
ghost use Rattle.em_line.specs.ParsedLine.{access_in, command_in, command_line, request_line, says};

use crate::command::Command;
use crate::grammar::{alone, back_form, is_comment, link_form, peek_form, read_form, write_form};
use crate::look::Look;
use crate::request_name::{RequestName, request_named};
use em_step::Event;
use em_text::{Words, is_name};

/// The form of a line by its name. Words that bring octets, or ask something of a driver, or say a plan, are not read yet:
/// such a line may still be bad.
#[derive(Clone, Copy)]
pub enum LineForm<'a> {
    /// It has no word, or is a comment.
    Silent,
    Bad,
    /// A command that brings no octets.
    Command(Command<'static>),
    /// A memory write of these words.
    Poke(Words<'a>),
    /// A frame of these words.
    Arrive(Words<'a>),
    /// Something is asked of a driver with these words behind the name.
    Request(RequestName, Words<'a>),
    /// The words of a plan.
    Plan(Words<'a>),
}

/// The form of a line. It takes no memory.
#[tactic(auto, unfolding(crate::specs::Grammar::parsed_line))]
pub fn form_of(line: &[u8]) -> LineForm<'_>
    ensures { said_by result ≡ parsed_line line.now }
{
    let mut words = Words(line);
    let Some(name) = words.next_short() else {
        return LineForm::Silent;
    };
    if is_comment(name) {
        return LineForm::Silent;
    }
    named(name, words)
}

/// The command that a line is, where it brings no octets. It takes no memory.
pub fn command_of(line: &[u8]) -> Option<Command<'static>>
    ensures { option_map plain result ≡ command_in (parsed_line line.now) }
{
    match form_of(line) {
        LineForm::Command(command) => without_octets(command),
        LineForm::Silent | LineForm::Bad => None,
        LineForm::Poke(_) | LineForm::Arrive(_) | LineForm::Request(..) | LineForm::Plan(_) => None,
    }
}

/// A command, where it brings no octets.
fn without_octets(command: Command<'static>) -> Option<Command<'static>>
    ensures { option_map plain result ≡ command_in (says (plain command.entry)) }
{
    match command {
        Command::Event(Event::Poke(..) | Event::Arrive(_)) => None,
        _ => Some(command),
    }
}

/// The access to a register that a line says, if it says one. It takes no memory.
pub fn accessed(line: &[u8]) -> Option<Event<'static>>
    ensures { option_map plain_event result ≡ access_in (parsed_line line.now) }
{
    match command_of(line) {
        Some(command) => access_of(command),
        None => None,
    }
}

/// The access that a command is, if it is one.
fn access_of(command: Command<'static>) -> Option<Event<'static>>
    ensures { option_map plain_event result ≡ access_in (says (plain command.entry)) }
{
    match command {
        Command::Event(Event::Read(offset)) => Some(Event::Read(offset)),
        Command::Event(Event::Write(offset, value)) => Some(Event::Write(offset, value)),
        _ => None,
    }
}

/// The form of a line of this name.
fn named<'a>(name: &'a [u8], words: Words<'a>) -> LineForm<'a>
    ensures { said_by result ≡ named_form name.now (words_of words.entry.0.now) }
{
    if is_name(name, b"turns") {
        return LineForm::Plan(words);
    }
    event_named(name, words)
}

/// The form of an event, or of another command or request.
fn event_named<'a>(name: &'a [u8], words: Words<'a>) -> LineForm<'a>
    ensures { said_by result ≡ command_form name.now (arguments_of (words_of words.entry.0.now)) }
{
    if is_name(name, b"r") {
        return command_form(read_form(words));
    }
    if is_name(name, b"w") {
        return command_form(write_form(words));
    }
    if is_name(name, b"poke") {
        return LineForm::Poke(words);
    }
    if is_name(name, b"arrive") {
        return LineForm::Arrive(words);
    }
    if is_name(name, b"rx") {
        return command_form(alone(Command::Event(Event::RxStep), words));
    }
    if is_name(name, b"tx") {
        return command_form(alone(Command::Event(Event::TxStep), words));
    }
    if is_name(name, b"link") {
        return command_form(link_form(words));
    }
    look_named(name, words)
}

/// The form of a look or of steps back, or of what is asked of a driver.
fn look_named<'a>(name: &'a [u8], words: Words<'a>) -> LineForm<'a>
    ensures { said_by result ≡ look_form name.now (arguments_of (words_of words.entry.0.now)) }
{
    if is_name(name, b"peek") {
        return command_form(peek_form(words));
    }
    if let Some(look) = Look::of(name) {
        return command_form(alone(Command::Look(look), words));
    }
    if is_name(name, b"back") {
        return command_form(back_form(words));
    }
    request_named_form(name, words)
}

/// The form of what is asked of a driver by a name.
fn request_named_form<'a>(name: &[u8], words: Words<'a>) -> LineForm<'a>
    ensures { said_by result ≡ request_line (request_form name.now (arguments_of (words_of words.entry.0.now))) }
{
    match request_named(name) {
        Some(name) => LineForm::Request(name, words),
        None => LineForm::Bad,
    }
}

/// The form of a command, if words say one.
fn command_form(command: Option<Command<'static>>) -> LineForm<'static>
    ensures { said_by result ≡ command_line (option_map plain command.entry) }
{
    match command {
        Some(command) => LineForm::Command(command),
        None => LineForm::Bad,
    }
}
