//! What a line asks of a driver.
ghost use Rattle.std.specs.Prelude.{◌≡◌, IfOk, OnErr, IsTrue, option_and_then};
ghost use Rattle.std.specs.Option.{option_map};
ghost use Rattle.em_text.specs.Numbers.{octets_of};
ghost use Rattle.em_text.specs.Words.{words_of};
ghost use Rattle.em_line.specs.Arguments.{arguments_of, plain as plain_arguments};
ghost use Rattle.em_line.specs.Request.{plain, asked_form, request_form, send_form, receive_form, address_form, alone};
ghost use Rattle.em_line.specs.Request.{sets_address, address_of};
ghost use Rattle.em_line.specs.ParsedLine.{brings_octets, request_line};

use crate::arguments::{Arguments, arguments_of};
use crate::driver_call::DriverCall;
use crate::frame::frame_words_into;
use crate::request_name::RequestName;
use crate::spare::take_with_packet;
use em_text::{Words, is_name, octets_into};
use std::alloc::{AllocError, Global};
use std::collections::VecDeque;

/// What a line asks of a driver: a start, or a call of one that stands.
#[derive(Drop)]
pub enum Request {
    Start,
    Call(DriverCall),
}

/// The most packets that one `recv` asks for.
pub(crate) const MOST_PACKETS: u32 = 1024;

/// How many digits write an Ethernet address.
pub(crate) const ADDRESS_DIGITS: usize = 12;

/// What is asked of a driver by a name and the words behind it. Memory is taken for the octets that
/// it brings; `data_buffer` holds them on the way, and a packet goes into the spare queue.
pub fn request_form(
    alloc: Global,
    name: &[u8],
    words: Words<'_>,
    data_buffer: &mut Vec<u8>,
    spare: &mut VecDeque<Vec<u8>>,
) -> Result<Option<Request>, AllocError>
    ensures value { IfOk result (λ request.
        option_map plain request ≡ request_form name.now (arguments_of (words_of words.entry.0.now))) }
    ensures memory { OnErr result (IsTrue (brings_octets (request_line
        (request_form name.now (arguments_of (words_of words.entry.0.now)))))) }
{
    // The names are tested here once more, so that each leads to its form at once.
    if is_name(name, b"send") {
        return send_form(alloc, words, data_buffer, spare);
    }
    if is_name(name, b"recv") {
        return Ok(receive_form(words));
    }
    if is_name(name, b"init") {
        return Ok(alone(Request::Start, words));
    }
    if is_name(name, b"stats") {
        return Ok(alone(Request::Call(DriverCall::Stats), words));
    }
    if is_name(name, b"mac") {
        return address_form(arguments_of(words), data_buffer);
    }
    Ok(None)
}

/// The same by what the name asks.
#[inline(always)]
pub(crate) fn asked_form(
    alloc: Global,
    name: RequestName,
    words: Words<'_>,
    data_buffer: &mut Vec<u8>,
    spare: &mut VecDeque<Vec<u8>>,
) -> Result<Option<Request>, AllocError>
    ensures value { IfOk result (λ request.
        option_map plain request ≡ asked_form name (arguments_of (words_of words.entry.0.now))) }
    ensures memory { OnErr result (IsTrue (brings_octets (request_line
        (asked_form name (arguments_of (words_of words.entry.0.now)))))) }
{
    match name {
        RequestName::Start => Ok(alone(Request::Start, words)),
        RequestName::Send => send_form(alloc, words, data_buffer, spare),
        RequestName::Receive => Ok(receive_form(words)),
        RequestName::Stats => Ok(alone(Request::Call(DriverCall::Stats), words)),
        RequestName::Address => address_form(arguments_of(words), data_buffer),
    }
}

/// A request whose name has no word behind it.
fn alone(request: Request, words: Words<'_>) -> Option<Request>
    ensures { option_map plain result ≡ alone (plain request) (arguments_of (words_of words.entry.0.now)) }
{
    if words.is_over() { Some(request) } else { None }
}

/// send DATA, or send DATA LEN: one packet
#[inline(always)]
fn send_form(
    alloc: Global,
    words: Words<'_>,
    data_buffer: &mut Vec<u8>,
    spare: &mut VecDeque<Vec<u8>>,
) -> Result<Option<Request>, AllocError>
    ensures value { IfOk result (λ request.
        option_map plain request ≡ send_form (arguments_of (words_of words.entry.0.now))) }
    ensures memory { OnErr result
        (IsTrue (brings_octets (request_line (send_form (arguments_of (words_of words.entry.0.now)))))) }
{
    if !frame_words_into(data_buffer, words)? {
        return Ok(None);
    }
    let (mut packets, mut packet) = take_with_packet(alloc, spare);
    packet.extend_from_slice(data_buffer.as_slice())?;
    packets.push_back(packet)?;
    Ok(Some(Request::Call(DriverCall::Send(packets))))
}

/// recv N
#[inline(always)]
fn receive_form(mut words: Words<'_>) -> Option<Request>
    ensures { option_map plain result ≡ receive_form (arguments_of (words_of words.entry.0.now)) }
{
    let Some(most) = words.decimal_number() else {
        return None;
    };
    if most > MOST_PACKETS {
        return None;
    }
    alone(Request::Call(DriverCall::Receive(most)), words)
}

fn address_form(
    arguments: Arguments<'_>,
    data_buffer: &mut Vec<u8>,
) -> Result<Option<Request>, AllocError>
    ensures value { IfOk result (λ request. option_map plain request ≡ address_form (plain_arguments arguments.entry)) }
    ensures memory { OnErr result (IsTrue (brings_octets (request_line
        (address_form (plain_arguments arguments.entry))))) }
{
    match arguments {
        Arguments::Zero => Ok(Some(Request::Call(DriverCall::Address))),
        Arguments::One(digits) => set_address_form(digits, data_buffer),
        _ => Ok(None),
    }
}

/// The address that 12 digits write.
fn set_address_form(digits: &[u8], data_buffer: &mut Vec<u8>) -> Result<Option<Request>, AllocError>
    ensures value { IfOk result (λ request.
        option_map plain request ≡ option_map sets_address (option_and_then address_of (octets_of digits.now))) }
    ensures memory { OnErr result (IsTrue (brings_octets (request_line
        (option_map sets_address (option_and_then address_of (octets_of digits.now)))))) }
{
    // Digits of another number are not read: they are no line's, whatever they are.
    if digits.len() != ADDRESS_DIGITS {
        return Ok(None);
    }
    if !octets_into(data_buffer, digits)? {
        return Ok(None);
    }
    let mut address = [0u8; 6];
    address.copy_from_slice(data_buffer.as_slice());
    Ok(Some(Request::Call(DriverCall::SetAddress(address))))
}
