//! The answer that a line expects.
ghost use Rattle.std.specs.Prelude.{◌≡◌, ◌++◌};
ghost use Rattle.em_text.specs.Writer.{Writes};
ghost use Rattle.em_output.specs.Output.{reason_text};
ghost use Rattle.em_kept.specs.Kept.{answer_words, expected, number_behind, numbers_behind, refusal_words};

use crate::digits::value_digits;
use em_step::{Answer, Reason, Refusal};
use em_text::{WriteFailed, write_pieces, write_whole};
use itoa::Buffer;
use std::io::Write;

/// Writes what a performed event answered.
#[inline(always)]
pub(crate) fn write_answer<W: Write>(writer: &mut W, answer: Answer) -> Result<(), WriteFailed>
    ensures writes { Writes (W.contents writer.old) (W.contents writer.new) result (expected (answer_words answer)) }
{
    match answer {
        Answer::Done => write_whole(writer, b" =ok"),
        Answer::Value(value) => write_pieces(writer, &[b" =", &value_digits(value)]),
        Answer::Idle => write_whole(writer, b" =idle"),
        Answer::Wrote { index } => write_number(writer, b" =wrote ", u64::from(index)),
        Answer::Fetched { index } => write_number(writer, b" =fetched ", u64::from(index)),
        Answer::Sent { index, octets } => {
            write_numbers(
                writer,
                b" =sent ",
                u64::from(index),
                b" ",
                u64::from(octets),
            )
        }
        Answer::Stored => write_whole(writer, b" =stored"),
        Answer::Dropped(reason) => {
            write_pieces(writer, &[b" =dropped ", reason_name(reason).as_bytes()])
        }
    }
}

/// Writes why an event was refused.
pub(crate) fn write_refusal<W: Write>(writer: &mut W, refusal: Refusal) -> Result<(), WriteFailed>
    ensures writes { Writes (W.contents writer.old) (W.contents writer.new) result (expected (refusal_words refusal)) }
{
    write_pieces(writer, &[b" =refused ", refusal.name().as_bytes()])
}

/// Writes a number in decimal digits behind words.
pub(crate) fn write_number<W: Write>(
    writer: &mut W,
    words: &[u8],
    number: u64,
) -> Result<(), WriteFailed>
    ensures writes { Writes (W.contents writer.old) (W.contents writer.new) result (number_behind words.now number) }
{
    let mut digits = Buffer::new();
    write_pieces(writer, &[words, digits.format(number).as_bytes()])
}

/// Writes two numbers in decimal digits, with words before and between them.
pub(crate) fn write_numbers<W: Write>(
    writer: &mut W,
    words: &[u8],
    first: u64,
    between: &[u8],
    second: u64,
) -> Result<(), WriteFailed>
    ensures writes { Writes (W.contents writer.old) (W.contents writer.new) result
        (numbers_behind words.now first between.now second) }
{
    let mut one = Buffer::new();
    let mut other = Buffer::new();
    let (first, second) = (one.format(first), other.format(second));
    write_pieces(
        writer,
        &[words, first.as_bytes(), between, second.as_bytes()],
    )
}

/// Why a frame was dropped, as it is printed.
fn reason_name(reason: Reason) -> &'static str
    ensures { result.now ≡ reason_text reason }
{
    match reason {
        Reason::Down => "down",
        Reason::Disabled => "disabled",
        Reason::Rejected => "rejected",
        Reason::Undersize => "undersize",
        Reason::Oversize => "oversize",
        Reason::Missed => "missed",
    }
}
