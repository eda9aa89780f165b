//! What a word of a plan says.
ghost use Rattle.std.specs.Prelude.{◌≡◌, ◌≤◌, length};
ghost use Rattle.std.specs.List.{position_or_len};
ghost use Rattle.std.specs.Option.{option_map};
ghost use Rattle.em_line.specs.Arguments.{plain as plain_arguments};
ghost use Rattle.em_line.specs.TurnWord.{plain, turn_word, arrival_word, frame_parts, at_colon, is_colon};

use crate::arguments::Arguments;

/// What a word of a plan says. The octets of a frame are not read yet.
#[derive(Clone, Copy)]
pub enum TurnWord<'a> {
    /// No more turns before this access.
    End,
    /// A step of the receive engine.
    RxStep,
    /// A step of the transmit engine.
    TxStep,
    /// A frame arrives, of DATA, or of DATA and LEN.
    Arrive(Arguments<'a>),
}

const COLON: u8 = b':';

/// What a word of a plan says, if it says something.
pub fn turn_word(word: &[u8]) -> Option<TurnWord<'_>>
    ensures { option_map plain result ≡ turn_word word.now }
{
    if word == b".".as_slice() {
        return Some(TurnWord::End);
    }
    if word == b"rx".as_slice() {
        return Some(TurnWord::RxStep);
    }
    if word == b"tx".as_slice() {
        return Some(TurnWord::TxStep);
    }
    arrival_word(word)
}

/// arrive:DATA, or arrive:DATA:LEN.
fn arrival_word(word: &[u8]) -> Option<TurnWord<'_>>
    ensures { option_map plain result ≡ arrival_word (at_colon word.now) }
{
    match at_colon(word) {
        Some((name, behind)) => {
            if name == b"arrive".as_slice() {
                Some(TurnWord::Arrive(frame_parts(behind)))
            } else {
                None
            }
        }
        None => None,
    }
}

/// DATA, or DATA:LEN.
fn frame_parts(text: &[u8]) -> Arguments<'_>
    ensures { plain_arguments result ≡ frame_parts text.now (at_colon text.now) }
{
    match at_colon(text) {
        Some((digits, len)) => Arguments::Two(digits, len),
        None => Arguments::One(text),
    }
}

/// What stands before the first colon, and what behind it, if there is one.
fn at_colon(text: &[u8]) -> Option<(&[u8], &[u8])>
    ensures { option_map (λ parts. (parts.0.now, parts.1.now)) result ≡ at_colon text.now }
{
    let end = colon_len(text);
    if end == text.len() {
        return None;
    }
    Some((&text[..end], &text[end + 1..]))
}

/// How many octets a text has before its first colon.
fn colon_len(text: &[u8]) -> usize
    ensures value { result ≡ position_or_len is_colon text.now }
    ensures within { result ≤ length text.now }
{
    text.iter().take_while(|octet| !is_colon(**octet)).count()
}

fn is_colon(octet: u8) -> bool
    ensures { result ≡ is_colon octet }
{
    octet == COLON
}
