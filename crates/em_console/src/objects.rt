//! Answers as data: each is an object of JSON, on one line. [docs/debugger.md](../../../docs/debugger.md) has the format.
ghost use Rattle.std.specs.Prelude.{◌≡◌, ◌++◌, [], OnOk, codes};
ghost use Rattle.std.specs.Io.KnownBytes.{Appends};
ghost use Rattle.em_json.specs.Strings.{strings_text};
ghost use Rattle.em_text.specs.Writer.{Writes};
ghost use Rattle.em_console.specs.Objects.{AnswersBy, Place, RefusesBy, StopsBy};
ghost use Rattle.em_console.specs.Objects.{answer_text, field_text, opening_text, round_text, standing_text, status_text};

use crate::session::{Answers, Flow, Stands};
use crate::standing::{Became, Standing};
use em_json::{write_flag, write_number, write_string, write_strings};
use em_text::{WriteFailed, write_pieces, write_whole};
use std::alloc::{AllocError, Global};
use std::io::Write;

/// What stands before the first field of the first object.
const FORMAT: &[u8] = b"{\"format\":\"bunjelav debugger\",\"version\":1";

/// A session that answers each line by an object, which has its answer's lines, what became of it, and where the session
/// stands then.
#[derive(Drop)]
pub struct Objects<S: Answers + Stands + Drop> {
    pub session: S,
    alloc: Global,
}

impl<S: Answers + Stands + Drop> Objects<S> {
    pub fn new(alloc: Global, session: S) -> Objects<S>
        ensures { result.session ≡ session }
    {
        Objects { session, alloc }
    }
}

impl<S: Answers + Stands + Drop> Answers for Objects<S> {
    ghost answers = { λ before line text flow after.
        AnswersBy (record { standing = S.stands; source = S.comes_from; became = S.led }) S.answers
        before.session line text flow after.session };

    ghost stops = { λ before line after. StopsBy S.answers S.stops before.session line after.session };

    ghost refuses = { λ session line text.
        RefusesBy (record { standing = S.stands; source = S.comes_from; became = S.led }) S.refuses
        session.session line text };

    fn answer(&mut self, line: &[u8], text: &mut Vec<u8>) -> Result<Flow, AllocError> {
        let before = self.session.standing();
        let mut plain = Vec::new(self.alloc);
        let flow = self.session.answer(line, &mut plain)?;
        let became = self.session.became(line, before);
        let (standing, source) = (self.session.standing(), self.session.source());
        put_answer(text, line, plain.as_slice(), became, standing, source)?;
        Ok(flow)
    }

    fn refuse(&self, line: &[u8], text: &mut Vec<u8>) -> Result<(), AllocError> {
        let mut plain = Vec::new(self.alloc);
        self.session.refuse(line, &mut plain)?;
        let (standing, source) = (self.session.standing(), self.session.source());
        put_answer(
            text,
            line,
            plain.as_slice(),
            Became::Wrong,
            standing,
            source,
        )
    }
}

/// Puts the object of an answer into a text, which is empty.
fn put_answer(
    text: &mut Vec<u8>,
    line: &[u8],
    plain: &[u8],
    became: Became,
    standing: Standing,
    source: &[u8],
) -> Result<(), AllocError>
    requires { text.old.items ≡ [] }
    ensures ok { OnOk result (text.new.items ≡ answer_text line.now plain.now became standing source.now) }
{
    // A vector fails only where memory is refused.
    match write_answer(text, line, plain, became, standing, source) {
        Ok(()) => Ok(()),
        Err(_) => Err(AllocError),
    }
}

/// Writes the object of an answer.
fn write_answer<W: Write>(
    writer: &mut W,
    line: &[u8],
    plain: &[u8],
    became: Became,
    standing: Standing,
    source: &[u8],
) -> Result<(), WriteFailed>
    ensures ok { OnOk result (Appends (W.contents writer.old) (W.contents writer.new)
        (answer_text line.now plain.now became standing source.now)) }
{
    write_round(writer, line, plain)?;
    write_status(writer, became)?;
    write_standing(writer, standing, source)
}

/// Writes what became of a line.
fn write_status<W: Write>(writer: &mut W, became: Became) -> Result<(), WriteFailed>
    ensures writes { Writes (W.contents writer.old) (W.contents writer.new) result (status_text became) }
{
    let word = became.word();
    write_pieces(writer, &[b",\"status\":\"", word.as_bytes(), b"\""])
}

/// Writes the object that comes before the first line is read: what a session begins with, of which script.
pub fn write_opening<W: Write>(
    writer: &mut W,
    script: &[u8],
    plain: &[u8],
    standing: Standing,
    source: &[u8],
) -> Result<(), WriteFailed>
    ensures ok { OnOk result (Appends (W.contents writer.old) (W.contents writer.new)
        (opening_text script.now plain.now standing source.now)) }
{
    write_whole(writer, FORMAT)?;
    write_field(writer, b",\"script\":", script)?;
    write_lines(writer, plain)?;
    write_standing(writer, standing, source)
}

/// Writes the lines of an answer as a field.
fn write_lines<W: Write>(writer: &mut W, plain: &[u8]) -> Result<(), WriteFailed>
    ensures ok { OnOk result (Appends (W.contents writer.old) (W.contents writer.new)
        (codes ",\"lines\":" ++ strings_text plain.now)) }
{
    write_whole(writer, b",\"lines\":")?;
    write_strings(writer, plain)
}

/// Writes a line that was read, and the lines of its answer.
fn write_round<W: Write>(writer: &mut W, line: &[u8], plain: &[u8]) -> Result<(), WriteFailed>
    ensures ok { OnOk result (Appends (W.contents writer.old) (W.contents writer.new) (round_text line.now plain.now)) }
{
    write_whole(writer, b"{\"command\":")?;
    write_string(writer, line)?;
    write_lines(writer, plain)
}

/// Writes where a session stands, and ends the object.
fn write_standing<W: Write>(
    writer: &mut W,
    standing: Standing,
    source: &[u8],
) -> Result<(), WriteFailed>
    ensures ok { OnOk result (Appends (W.contents writer.old) (W.contents writer.new)
        (standing_text standing source.now)) }
{
    write_number(writer, b",\"line\":", standing.line)?;
    write_number(writer, b",\"of\":", standing.lines)?;
    write_number(writer, b",\"event\":", standing.event)?;
    write_flag(writer, b",\"ahead\":", standing.is_ahead)?;
    write_field(writer, b",\"source\":", source)?;
    write_whole(writer, b"}\n")
}

/// Writes a field that holds a text, behind its name, where there is a text.
fn write_field<W: Write>(writer: &mut W, name: &[u8], text: &[u8]) -> Result<(), WriteFailed>
    ensures ok { OnOk result (Appends (W.contents writer.old) (W.contents writer.new) (field_text name.now text.now)) }
{
    if text.is_empty() {
        return Ok(());
    }
    write_whole(writer, name)?;
    write_string(writer, text)
}
