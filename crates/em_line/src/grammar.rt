//! What a line says, by its words.
ghost use Rattle.std.specs.Prelude.{◌≡◌, ◌≤◌, ◌<◌, length, IfOk, IfSome, OnErr, IsSome, IsNone, IsTrue};
ghost use Rattle.std.specs.Option.{option_map};
ghost use Rattle.em_step.specs.Event.{pokes};
ghost use Rattle.em_text.specs.Numbers.{octets_of};
ghost use Rattle.em_text.specs.Words.{words_of};
ghost use Rattle.em_line.specs.Arguments.{arguments_of};
ghost use Rattle.em_line.specs.Command.{plain, event};
ghost use Rattle.em_line.specs.ParsedLine.{says, bad, brings_octets, command_line, plan_line};
ghost use Rattle.em_line.specs.Plan.{plan_of};
ghost use Rattle.em_line.specs.Grammar.{is_comment, alone, with, read_form, write_form, poke_form, arrive_form};
ghost use Rattle.em_line.specs.Grammar.{link_form, peek_form, back_form, turns_form, way_of, count_to};

use crate::arguments::{Arguments, arguments_of};
use crate::back_count::{BackCount, MOST_BACK};
use crate::command::Command;
use crate::frame::{data_words_into, frame_words_into};
use crate::peek_len::{MOST_PEEK, PeekLen};
use crate::plan::{PlanWords, plan_words};
use em_step::Event;
use em_text::Words;
use std::alloc::AllocError;

/// What a comment begins with.
pub(crate) const HASH: u8 = b'#';

/// Whether a word begins a comment.
pub fn is_comment(word: &[u8]) -> bool
    ensures { result ≡ is_comment word.now }
{
    matches!(word, [HASH, ..])
}

/// A command whose name has no word behind it.
#[inline(always)]
pub fn alone(command: Command<'static>, words: Words<'_>) -> Option<Command<'static>>
    ensures { command_line (option_map plain result)
        ≡ alone (plain command.entry) (arguments_of (words_of words.entry.0.now)) }
{
    if words.is_over() { Some(command) } else { None }
}

/// r OFF
#[inline(always)]
pub fn read_form(mut words: Words<'_>) -> Option<Command<'static>>
    ensures { command_line (option_map plain result) ≡ read_form (arguments_of (words_of words.entry.0.now)) }
{
    let Some(offset) = words.hex_number() else {
        return None;
    };
    alone(Command::Event(Event::Read(offset)), words)
}

/// w OFF VAL
#[inline(always)]
pub fn write_form(mut words: Words<'_>) -> Option<Command<'static>>
    ensures { command_line (option_map plain result) ≡ write_form (arguments_of (words_of words.entry.0.now)) }
{
    let Some(offset) = words.hex_number() else {
        return None;
    };
    let Some(value) = words.hex_number() else {
        return None;
    };
    alone(Command::Event(Event::Write(offset, value)), words)
}

/// poke ADDR DATA
#[inline(always)]
pub fn poke_form<'a>(
    mut words: Words<'_>,
    data_buffer: &'a mut Vec<u8>,
) -> Result<Option<Command<'a>>, AllocError>
    ensures value { IfOk result (λ command.
        command_line (option_map plain command) ≡ poke_form (arguments_of (words_of words.entry.0.now))) }
    ensures memory { OnErr result (IsTrue (brings_octets (poke_form (arguments_of (words_of words.entry.0.now))))) }
{
    let Some(addr) = words.hex_address() else {
        return Ok(None);
    };
    if data_words_into(data_buffer, words)? {
        Ok(Some(Command::Event(Event::Poke(addr, data_buffer.as_slice()))))
    } else {
        Ok(None)
    }
}

/// peek ADDR LEN
#[inline(always)]
pub fn peek_form(mut words: Words<'_>) -> Option<Command<'static>>
    ensures { command_line (option_map plain result) ≡ peek_form (arguments_of (words_of words.entry.0.now)) }
{
    let Some(addr) = words.hex_address() else {
        return None;
    };
    let Some(len) = words.decimal_number() else {
        return None;
    };
    if len == 0 || len > MOST_PEEK as u32 {
        return None;
    }
    let octets = len as usize;
    alone(Command::Peek(addr, PeekLen { octets }), words)
}

/// arrive DATA, or arrive DATA LEN
#[inline(always)]
pub fn arrive_form<'a>(
    words: Words<'_>,
    data_buffer: &'a mut Vec<u8>,
) -> Result<Option<Command<'a>>, AllocError>
    ensures value { IfOk result (λ command.
        command_line (option_map plain command) ≡ arrive_form (arguments_of (words_of words.entry.0.now))) }
    ensures memory { OnErr result (IsTrue (brings_octets (arrive_form (arguments_of (words_of words.entry.0.now))))) }
{
    if frame_words_into(data_buffer, words)? {
        Ok(Some(Command::Event(Event::Arrive(data_buffer.as_slice()))))
    } else {
        Ok(None)
    }
}

/// back, or back N
#[inline(always)]
pub fn back_form(mut words: Words<'_>) -> Option<Command<'static>>
    ensures { command_line (option_map plain result) ≡ back_form (arguments_of (words_of words.entry.0.now)) }
{
    if words.is_over() {
        return Some(Command::Back);
    }
    let Some(count) = words.decimal_number() else {
        return None;
    };
    if count == 0 || count > MOST_BACK {
        return None;
    }
    let events = count;
    alone(Command::BackBy(BackCount { events }), words)
}

/// link up, or link down
#[inline(never)]
pub fn link_form(words: Words<'_>) -> Option<Command<'static>>
    ensures { command_line (option_map plain result) ≡ link_form (arguments_of (words_of words.entry.0.now)) }
{
    match arguments_of(words) {
        Arguments::One(way) => match way_of(way) {
            Some(up) => Some(Command::Event(Event::Link(up))),
            None => None,
        },
        _ => None,
    }
}

/// turns WORD ..
pub fn turns_form(words: Words<'_>) -> Option<PlanWords<'_>>
    requires { length (words_of words.0.now) < 0x1_0000_0000 }
    ensures some { IfSome result (λ plan.
        turns_form (words_of words.entry.0.now) ≡ plan_line (plan_of (words_of plan.words.0.now))) }
    ensures none { IsNone result → turns_form (words_of words.entry.0.now) ≡ bad }
{
    let mut others = words;
    if others.next().is_none() {
        return None;
    }
    plan_words(words)
}

/// Whether the link goes up, if the word says which way it goes.
fn way_of(word: &[u8]) -> Option<bool>
    ensures { result ≡ way_of word.now }
{
    if word == b"up".as_slice() {
        return Some(true);
    }
    if word == b"down".as_slice() {
        return Some(false);
    }
    None
}
