//! Writing answers. Each text has a function of its own that is not inlined, so that a line pays
//! for its own text alone.
ghost use Rattle.std.specs.Prelude.{◌≡◌, ◌≤◌, ◌++◌, length};
ghost use Rattle.em_text.specs.Writer.{Writes, hex_line_text, value_text, decimal_line_text};
ghost use Rattle.em_output.specs.Output.{answer_text, reason_text, done_text, bit_text, back_text};
ghost use Rattle.em_output.specs.Output.{bad_line_text, refusal_text, empty_text, sent_text};

use em_journal::Empty;
use em_step::{Answer, Reason, Refusal};
use em_text::{
    WriteFailed, write_number_line, write_numbers_line, write_octets_line, write_pieces,
    write_value, write_whole,
};
use std::io::Write;

/// What a performed event answered.
#[inline(always)]
pub fn write_answer<W: Write>(writer: &mut W, answer: Answer) -> Result<(), WriteFailed>
    ensures { Writes (W.contents writer.old) (W.contents writer.new) result (answer_text answer) }
{
    match answer {
        Answer::Done => write_done(writer),
        Answer::Value(value) => write_value(writer, value),
        Answer::Idle => write_text(writer, b"idle\n"),
        Answer::Wrote { index } => write_count(writer, b"wrote ", u64::from(index)),
        Answer::Fetched { index } => write_count(writer, b"fetched ", u64::from(index)),
        Answer::Sent { index, octets } => write_sent(writer, u64::from(index), u64::from(octets)),
        Answer::Stored => write_text(writer, b"stored\n"),
        Answer::Dropped(reason) => write_dropped(writer, reason),
    }
}

/// A text of its own for what was done.
#[inline(never)]
fn write_text<W: Write>(writer: &mut W, text: &[u8]) -> Result<(), WriteFailed>
    ensures { Writes (W.contents writer.old) (W.contents writer.new) result text.now }
{
    write_whole(writer, text)
}

/// A word for what was done, with a number.
#[inline(always)]
pub fn write_count<W: Write>(writer: &mut W, word: &[u8], number: u64) -> Result<(), WriteFailed>
    requires { length word.now ≤ 16 }
    ensures { Writes (W.contents writer.old) (W.contents writer.new) result (word.now ++ decimal_line_text number) }
{
    write_number_line(writer, word, number)
}

/// That the descriptor of an index was handled, and a frame of so many octets sent.
#[inline(never)]
fn write_sent<W: Write>(writer: &mut W, index: u64, octets: u64) -> Result<(), WriteFailed>
    ensures { Writes (W.contents writer.old) (W.contents writer.new) result (sent_text index octets) }
{
    write_numbers_line(writer, b"sent ", index, octets, b"\n")
}

/// That a frame was dropped, and why.
#[inline(never)]
fn write_dropped<W: Write>(writer: &mut W, reason: Reason) -> Result<(), WriteFailed>
    ensures { Writes (W.contents writer.old) (W.contents writer.new) result (answer_text (Answer.Dropped reason)) }
{
    write_pieces(
        writer,
        &[b"dropped ", reason_name(reason).as_bytes(), b"\n"],
    )
}

/// Why a frame was dropped, as it is printed.
fn reason_name(reason: Reason) -> &'static str
    ensures { result.now ≡ reason_text reason }
{
    match reason {
        Reason::Down => "down",
        Reason::Disabled => "disabled",
        Reason::Rejected => "rejected",
        Reason::Undersize => "undersize",
        Reason::Oversize => "oversize",
        Reason::Missed => "missed",
    }
}

/// That something was done.
#[inline(never)]
pub fn write_done<W: Write>(writer: &mut W) -> Result<(), WriteFailed>
    ensures { Writes (W.contents writer.old) (W.contents writer.new) result done_text }
{
    write_whole(writer, b"ok\n")
}

/// Octets that were looked at.
#[inline(never)]
pub fn write_octets<W: Write>(writer: &mut W, octets: &[u8]) -> Result<(), WriteFailed>
    ensures { Writes (W.contents writer.old) (W.contents writer.new) result (hex_line_text octets.now) }
{
    write_octets_line(writer, octets)
}

/// A bit that was looked at.
pub fn write_bit<W: Write>(writer: &mut W, bit: bool) -> Result<(), WriteFailed>
    ensures { Writes (W.contents writer.old) (W.contents writer.new) result (bit_text bit) }
{
    let text: &[u8] = if bit { b"1\n" } else { b"0\n" };
    write_whole(writer, text)
}

/// How many events were taken back.
#[inline(never)]
pub fn write_back<W: Write>(writer: &mut W, count: u32) -> Result<(), WriteFailed>
    ensures { Writes (W.contents writer.old) (W.contents writer.new) result (back_text count) }
{
    write_count(writer, b"back ", u64::from(count))
}

/// That the line of this number has no form.
#[inline(never)]
pub fn write_bad_line<W: Write>(writer: &mut W, number: u32) -> Result<(), WriteFailed>
    ensures { Writes (W.contents writer.old) (W.contents writer.new) result (bad_line_text number) }
{
    write_number_line(writer, b"bad line ", u64::from(number))
}

/// Why an event or a look at memory was refused.
#[inline(never)]
pub fn write_refusal<W: Write>(writer: &mut W, refusal: Refusal) -> Result<(), WriteFailed>
    ensures { Writes (W.contents writer.old) (W.contents writer.new) result (refusal_text refusal) }
{
    write_pieces(writer, &[b"refused ", refusal.name().as_bytes(), b"\n"])
}

/// That there was nothing to take back.
pub fn write_empty<W: Write>(writer: &mut W) -> Result<(), WriteFailed>
    ensures { Writes (W.contents writer.old) (W.contents writer.new) result empty_text }
{
    write_pieces(writer, &[b"refused ", Empty.name().as_bytes(), b"\n"])
}
