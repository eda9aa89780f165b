//! Writing an answer, and saying what its line came to.
ghost use Rattle.std.specs.Prelude.{◌≤◌, ◌++◌, length};
ghost use Rattle.em_text.specs.Writer.{hex_line_text, decimal_line_text};
ghost use Rattle.em_output.specs.Output.{answer_text, done_text, bit_text, back_text};
ghost use Rattle.em_output.specs.Output.{bad_line_text, refusal_text, empty_text};
ghost use Rattle.em_script.specs.Outcome.{Prints};

use crate::outcome::{Outcome, Refused};
use em_step::{Answer, Refusal};
use em_text::WriteFailed;
use std::io::Write;

/// What a performed event answered.
#[inline(always)]
pub(crate) fn write_answer<W: Write>(writer: &mut W, answer: Answer) -> Result<Outcome, WriteFailed>
    ensures { Prints (answer_text answer) (Outcome.Answered answer)
        (W.contents writer.old) (W.contents writer.new) result }
{
    em_output::write_answer(writer, answer)?;
    Ok(Outcome::Answered(answer))
}

/// Why an event, a look at memory or a plan was refused.
#[inline(always)]
pub(crate) fn write_refusal<W: Write>(
    writer: &mut W,
    refusal: Refusal,
) -> Result<Outcome, WriteFailed>
    ensures { Prints (refusal_text refusal) (Outcome.Refused (Refused.By refusal))
        (W.contents writer.old) (W.contents writer.new) result }
{
    em_output::write_refusal(writer, refusal)?;
    Ok(Outcome::Refused(Refused::By(refusal)))
}

/// That there was nothing to take back.
#[inline(always)]
pub(crate) fn write_empty<W: Write>(writer: &mut W) -> Result<Outcome, WriteFailed>
    ensures { Prints empty_text (Outcome.Refused Refused.Empty) (W.contents writer.old) (W.contents writer.new) result }
{
    em_output::write_empty(writer)?;
    Ok(Outcome::Refused(Refused::Empty))
}

/// That the line of this number has no form.
#[inline(always)]
pub(crate) fn write_bad_line<W: Write>(writer: &mut W, number: u32) -> Result<Outcome, WriteFailed>
    ensures { Prints (bad_line_text number) Outcome.Bad (W.contents writer.old) (W.contents writer.new) result }
{
    em_output::write_bad_line(writer, number)?;
    Ok(Outcome::Bad)
}

/// That something was done.
#[inline(always)]
pub(crate) fn write_done<W: Write>(writer: &mut W) -> Result<Outcome, WriteFailed>
    ensures { Prints done_text Outcome.Done (W.contents writer.old) (W.contents writer.new) result }
{
    em_output::write_done(writer)?;
    Ok(Outcome::Done)
}

/// How many events were taken back.
#[inline(always)]
pub(crate) fn write_back<W: Write>(writer: &mut W, count: u32) -> Result<Outcome, WriteFailed>
    ensures { Prints (back_text count) Outcome.Done (W.contents writer.old) (W.contents writer.new) result }
{
    em_output::write_back(writer, count)?;
    Ok(Outcome::Done)
}

/// A bit that was looked at.
#[inline(always)]
pub(crate) fn write_bit<W: Write>(writer: &mut W, bit: bool) -> Result<Outcome, WriteFailed>
    ensures { Prints (bit_text bit) Outcome.Done (W.contents writer.old) (W.contents writer.new) result }
{
    em_output::write_bit(writer, bit)?;
    Ok(Outcome::Done)
}

/// Octets that were looked at.
#[inline(always)]
pub(crate) fn write_octets<W: Write>(writer: &mut W, octets: &[u8]) -> Result<Outcome, WriteFailed>
    ensures { Prints (hex_line_text octets.now) Outcome.Done (W.contents writer.old) (W.contents writer.new) result }
{
    em_output::write_octets(writer, octets)?;
    Ok(Outcome::Done)
}

/// A word for what was done, with a number.
#[inline(always)]
pub(crate) fn write_count<W: Write>(
    writer: &mut W,
    word: &[u8],
    number: u64,
) -> Result<Outcome, WriteFailed>
    requires { length word.now ≤ 16 }
    ensures { Prints (word.now ++ decimal_line_text number) Outcome.Done
        (W.contents writer.old) (W.contents writer.new) result }
{
    em_output::write_count(writer, word, number)?;
    Ok(Outcome::Done)
}
