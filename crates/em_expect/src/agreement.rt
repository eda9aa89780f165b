//! Whether an answer is the one that was expected.
ghost use Rattle.std.specs.Prelude.{◌≡◌, ◌-◌, ◌<◌, ◌≤◌, length, take, zip};
ghost use Rattle.std.specs.Option.{option_map};
ghost use Rattle.std.specs.Char.{is_ascii_hexdigit};
ghost use Rattle.std.specs.List.{list_all, position_or_len};
ghost use Rattle.em_step.specs.Event.{plain};
ghost use Rattle.em_text.specs.Lines.{is_newline};
ghost use Rattle.em_expect.specs.Agreement.{agrees_as_number, agrees_as_text, agrees_by, agrees_of, each_agrees};
ghost use Rattle.em_expect.specs.Agreement.{eight_digits, eight_of, first_line, fits, is_read, is_value, padded};
ghost use Rattle.em_expect.specs.Agreement.{padded_digit, stands_for};

use em_line::bare;
use em_step::Event;

/// What stands for a digit that does not matter.
pub(crate) const DASH: u8 = b'-';

/// What ends a line.
const NEWLINE: u8 = b'\n';

const ZERO: u8 = b'0';

/// How many digits a register's value has.
pub(crate) const DIGITS: usize = 8;

/// Whether an answer is the one that was expected. Of an answer of several lines the first counts. Letters agree in either
/// case, and a `-` that is expected agrees with each hexadecimal digit. No answer agrees with an empty text.
///
/// What a read of a register answers, 8 hexadecimal digits, is compared as a number: `81`, `0x81` and `00000081` are the
/// same. Other answers are compared as texts, and there a `-` agrees with a `-` too. `event` is what the line says that was
/// answered, if it says an event.
pub fn agrees_of(event: Option<Event<'_>>, expected: &[u8], answer: &[u8]) -> bool
    ensures { result ≡ agrees_of (option_map plain event.entry) expected.now answer.now }
{
    let line = first_line(answer);
    agrees_by(is_read(event) && is_value(line), expected, line)
}

fn is_read(event: Option<Event<'_>>) -> bool
    ensures { result ≡ is_read (option_map plain event.entry) }
{
    matches!(event, Some(Event::Read(_)))
}

/// As a number, where the answer is a value, or as a text.
fn agrees_by(value: bool, expected: &[u8], line: &[u8]) -> bool
    ensures { result ≡ agrees_by value expected.now line.now }
{
    if value {
        agrees_as_number(expected, line)
    } else {
        agrees_as_text(expected, line)
    }
}

fn agrees_as_text(expected: &[u8], line: &[u8]) -> bool
    ensures { result ≡ agrees_as_text expected.now line.now }
{
    !expected.is_empty() && expected.len() == line.len() && each_agrees(expected, line)
}

fn agrees_as_number(expected: &[u8], line: &[u8]) -> bool
    ensures { result ≡ agrees_as_number expected.now line.now }
{
    match eight_digits(expected) {
        Some(digits) => each_agrees(&digits, line),
        None => false,
    }
}

/// Whether each octet of an expected text agrees with the one at its place.
fn each_agrees(expected: &[u8], line: &[u8]) -> bool
    ensures { result ≡ each_agrees expected.now line.now }
{
    expected
        .iter()
        .zip(line)
        .all(|(wanted, octet)| stands_for(*wanted, *octet))
}

/// Whether a line is the value of a register: 8 digits.
fn is_value(line: &[u8]) -> bool
    ensures { result ≡ is_value line.now }
{
    line.len() == DIGITS && are_digits(line)
}

/// Whether each octet is a hexadecimal digit.
fn are_digits(line: &[u8]) -> bool
    ensures { result ≡ list_all is_ascii_hexdigit line.now }
{
    line.iter().all(|octet| octet.is_ascii_hexdigit())
}

/// The eight digits of a number that is expected: it may have `0x` before it, and fewer digits, or zeros before eight.
pub(crate) fn eight_digits(expected: &[u8]) -> Option<[u8; DIGITS]>
    ensures { result ≡ eight_digits expected.now }
{
    eight_of(bare(expected))
}

fn eight_of(digits: &[u8]) -> Option<[u8; DIGITS]>
    ensures { result ≡ eight_of digits.now }
{
    if !digits.is_empty() && fits(digits) {
        Some(padded(digits))
    } else {
        None
    }
}

/// Whether the digits before the last eight are zeros.
fn fits(digits: &[u8]) -> bool
    ensures { result ≡ fits digits.now }
{
    digits[..digits.len().saturating_sub(DIGITS)]
        .iter()
        .all(|digit| *digit == ZERO)
}

/// The last eight digits, or all with zeros before them.
fn padded(digits: &[u8]) -> [u8; DIGITS]
    ensures { result ≡ padded digits.now }
{
    [
        padded_digit(digits, 0),
        padded_digit(digits, 1),
        padded_digit(digits, 2),
        padded_digit(digits, 3),
        padded_digit(digits, 4),
        padded_digit(digits, 5),
        padded_digit(digits, 6),
        padded_digit(digits, 7),
    ]
}

/// One of these, from the left.
fn padded_digit(digits: &[u8], at: usize) -> u8
    requires { at < 8 }
    ensures { result ≡ padded_digit digits.now at }
{
    let missing = DIGITS.saturating_sub(digits.len());
    if at < missing {
        ZERO
    } else {
        digits[(at - missing) + digits.len().saturating_sub(DIGITS)]
    }
}

/// The first line of an answer, without its newline.
pub(crate) fn first_line(answer: &[u8]) -> &[u8]
    ensures { result.now ≡ first_line answer.now }
{
    &answer[..first_line_len(answer)]
}

/// How many octets an answer has before its first newline.
fn first_line_len(answer: &[u8]) -> usize
    ensures value { result ≡ position_or_len is_newline answer.now }
    ensures within { result ≤ length answer.now }
{
    answer.iter().take_while(|octet| **octet != NEWLINE).count()
}

/// Whether an octet of an expected text agrees with one of an answer.
fn stands_for(wanted: u8, octet: u8) -> bool
    ensures { result ≡ stands_for wanted octet }
{
    wanted.eq_ignore_ascii_case(&octet) || (wanted == DASH && octet.is_ascii_hexdigit())
}
