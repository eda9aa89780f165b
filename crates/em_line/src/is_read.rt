//! Whether em_bench reads a line.
ghost use Rattle.std.specs.Prelude.{◌≡◌, option_and_then};
ghost use Rattle.std.specs.Option.{option_map};
ghost use Rattle.em_text.specs.Numbers.{octets_of};
ghost use Rattle.em_text.specs.Words.{words_of};
ghost use Rattle.em_line.specs.Arguments.{arguments_of, plain};
ghost use Rattle.em_line.specs.Grammar.{arrive_form, parsed_line, poke_form, turns_form};
ghost use Rattle.em_line.specs.ParsedLine.{is_read, request_line};
ghost use Rattle.em_line.specs.Request.{address_form, address_of, asked_form, receive_form, sets_address};

use crate::arguments::{Arguments, arguments_of};
use crate::form::{LineForm, form_of};
use crate::frame::is_frame;
use crate::plan::are_turns;
use crate::request::{ADDRESS_DIGITS, MOST_PACKETS};
use crate::request_name::RequestName;
use em_text::{Words, decimal_number, is_octets};

/// Whether em_bench reads a line: it is no bad one. It takes no memory.
pub fn is_line(line: &[u8]) -> bool
    ensures { result ≡ is_read (parsed_line line.now) }
{
    match form_of(line) {
        LineForm::Silent | LineForm::Command(_) => true,
        LineForm::Bad => false,
        LineForm::Poke(words) => reads_poke(words),
        LineForm::Arrive(words) => reads_arrive(words),
        LineForm::Request(name, words) => reads_request(name, words),
        LineForm::Plan(words) => reads_plan(words),
    }
}

/// poke ADDR DATA
fn reads_poke(mut words: Words<'_>) -> bool
    ensures { result ≡ is_read (poke_form (arguments_of (words_of words.entry.0.now))) }
{
    if words.hex_address().is_none() {
        return false;
    }
    match words.next() {
        Some(digits) => is_octets(digits) && words.is_over(),
        None => false,
    }
}

/// arrive DATA, or arrive DATA LEN
fn reads_arrive(words: Words<'_>) -> bool
    ensures { result ≡ is_read (arrive_form (arguments_of (words_of words.entry.0.now))) }
{
    is_frame(arguments_of(words))
}

/// What is asked of a driver by a name.
fn reads_request(name: RequestName, words: Words<'_>) -> bool
    ensures { result ≡ is_read (request_line (asked_form name (arguments_of (words_of words.entry.0.now)))) }
{
    match name {
        RequestName::Start | RequestName::Stats => words.is_over(),
        RequestName::Send => is_frame(arguments_of(words)),
        RequestName::Receive => reads_receive(arguments_of(words)),
        RequestName::Address => reads_address(arguments_of(words)),
    }
}

/// recv N
fn reads_receive(arguments: Arguments<'_>) -> bool
    ensures { result ≡ is_read (request_line (receive_form (plain arguments.entry))) }
{
    match arguments {
        Arguments::One(most) => match decimal_number(most) {
            Some(most) => most <= MOST_PACKETS,
            None => false,
        },
        _ => false,
    }
}

/// mac, or mac DATA
fn reads_address(arguments: Arguments<'_>) -> bool
    ensures { result ≡ is_read (request_line (address_form (plain arguments.entry))) }
{
    match arguments {
        Arguments::Zero => true,
        Arguments::One(digits) => is_address(digits),
        _ => false,
    }
}

/// Whether digits write an Ethernet address.
fn is_address(digits: &[u8]) -> bool
    ensures { result ≡ is_read (request_line
        (option_map sets_address (option_and_then address_of (octets_of digits.now)))) }
{
    digits.len() == ADDRESS_DIGITS && is_octets(digits)
}

/// turns WORD ..
fn reads_plan(words: Words<'_>) -> bool
    ensures { result ≡ is_read (turns_form (words_of words.entry.0.now)) }
{
    !words.is_over() && are_turns(words)
}
