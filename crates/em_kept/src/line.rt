//! The lines of events.
ghost use Rattle.std.specs.Prelude.{◌≡◌, ◌++◌};
ghost use Rattle.std.specs.List.{flat_map};
ghost use Rattle.em_step.specs.Event.{arrives, plain, pokes, reads, writes};
ghost use Rattle.em_text.specs.Writer.{Writes};
ghost use Rattle.em_kept.specs.Source as sources;
ghost use Rattle.em_kept.specs.Kept.{answer_words, behind_text, comment_words, event_text, event_words, has_line};
ghost use Rattle.em_kept.specs.Kept.{octets_behind, refusal_words, refused_text, refused_words, told_words};

use crate::answer::{write_answer, write_number, write_refusal};
use crate::digits::{MOST_DIGITS, number_digits, put_behind};
use crate::source::{Source, write_end};
use em_step::{Answer, Event, Refusal};
use em_text::{WriteFailed, write_octets, write_pieces, write_whole};
use itoa::Buffer;
use std::io::Write;

/// The most octets that an event takes: a frame of this length.
const MOST_OCTETS: usize = 20_000;

/// Room for what a line says of an access: a letter, and two numbers of up to 16 digits, a space before each.
const ACCESS: usize = 35;

/// Writes the line of an event that was performed: what it was, its answer, and where its call comes from.
pub fn write_event<W: Write>(
    writer: &mut W,
    event: Event<'_>,
    answer: Answer,
    source: Source<'_>,
) -> Result<(), WriteFailed>
    ensures writes { Writes (W.contents writer.old) (W.contents writer.new) result
        (event_text (plain event.entry) answer (sources.plain source.entry)) }
{
    write_said(writer, event)?;
    write_answered(writer, answer, source)
}

/// Writes the answer of an event, and where its call comes from.
#[inline(always)]
fn write_answered<W: Write>(
    writer: &mut W,
    answer: Answer,
    source: Source<'_>,
) -> Result<(), WriteFailed>
    ensures writes { Writes (W.contents writer.old) (W.contents writer.new) result
        (behind_text (answer_words answer) (sources.plain source.entry)) }
{
    write_answer(writer, answer)?;
    write_end(writer, source)
}

/// Writes the line of an event that was refused. It is a comment where memory was refused, which may be there when the
/// lines are played, and where no line says the event: it has no octets, or more than any event takes.
pub fn write_refused<W: Write>(
    writer: &mut W,
    event: Event<'_>,
    refusal: Refusal,
    source: Source<'_>,
) -> Result<(), WriteFailed>
    ensures writes { Writes (W.contents writer.old) (W.contents writer.new) result
        (refused_text (plain event.entry) refusal (sources.plain source.entry)) }
{
    write_refused_event(writer, event, refusal)?;
    write_why(writer, refusal, source)
}

/// Writes why an event was refused, and where its call comes from.
fn write_why<W: Write>(
    writer: &mut W,
    refusal: Refusal,
    source: Source<'_>,
) -> Result<(), WriteFailed>
    ensures writes { Writes (W.contents writer.old) (W.contents writer.new) result
        (behind_text (refusal_words refusal) (sources.plain source.entry)) }
{
    write_refusal(writer, refusal)?;
    write_end(writer, source)
}

/// Writes what a line says of an event that was refused.
fn write_refused_event<W: Write>(
    writer: &mut W,
    event: Event<'_>,
    refusal: Refusal,
) -> Result<(), WriteFailed>
    ensures writes { Writes (W.contents writer.old) (W.contents writer.new) result
        (refused_words (plain event.entry) refusal) }
{
    if has_line(event, refusal) {
        return write_said(writer, event);
    }
    write_comment(writer, event)
}

/// Writes a comment that tells what an event was.
fn write_comment<W: Write>(writer: &mut W, event: Event<'_>) -> Result<(), WriteFailed>
    ensures writes { Writes (W.contents writer.old) (W.contents writer.new) result (comment_words (plain event.entry)) }
{
    write_whole(writer, b"# ")?;
    write_told(writer, event)
}

/// Whether an event that was refused has a line that is played.
fn has_line(event: Event<'_>, refusal: Refusal) -> bool
    ensures { result ≡ has_line (plain event.entry) refusal }
{
    match (event, refusal) {
        (_, Refusal::Memory) => false,
        (Event::Poke(_, octets) | Event::Arrive(octets), _) => {
            !octets.is_empty() && octets.len() <= MOST_OCTETS
        }
        _ => true,
    }
}

/// Writes what a line says that performs an event.
#[inline(always)]
fn write_said<W: Write>(writer: &mut W, event: Event<'_>) -> Result<(), WriteFailed>
    ensures writes { Writes (W.contents writer.old) (W.contents writer.new) result (event_words (plain event.entry)) }
{
    match event {
        Event::Read(offset) => write_read(writer, offset),
        Event::Write(offset, value) => write_written(writer, offset, value),
        Event::Poke(addr, octets) => write_poke(writer, addr, octets),
        Event::Arrive(frame) => write_octets_behind(writer, &[b"arrive "], frame),
        Event::Link(true) => write_whole(writer, b"link up"),
        Event::Link(false) => write_whole(writer, b"link down"),
        Event::RxStep => write_whole(writer, b"rx"),
        Event::TxStep => write_whole(writer, b"tx"),
    }
}

/// Writes that a register was read, all at once.
#[inline(always)]
fn write_read<W: Write>(writer: &mut W, offset: u32) -> Result<(), WriteFailed>
    ensures writes { Writes (W.contents writer.old) (W.contents writer.new) result (event_words (reads offset)) }
{
    let mut line = [0; ACCESS];
    let at = put_behind(b"r ", u64::from(offset), &mut line, ACCESS);
    write_whole(writer, &line[at..])
}

/// Writes that a register was written, all at once.
#[inline(always)]
fn write_written<W: Write>(writer: &mut W, offset: u32, value: u32) -> Result<(), WriteFailed>
    ensures writes { Writes (W.contents writer.old) (W.contents writer.new) result (event_words (writes offset value)) }
{
    let mut line = [0; ACCESS];
    let value_at = put_behind(b" ", u64::from(value), &mut line, ACCESS);
    let at = put_behind(b"w ", u64::from(offset), &mut line, value_at);
    write_whole(writer, &line[at..])
}

/// Writes that octets were written to guest memory.
fn write_poke<W: Write>(writer: &mut W, addr: u64, octets: &[u8]) -> Result<(), WriteFailed>
    ensures writes { Writes (W.contents writer.old) (W.contents writer.new) result
        (event_words (pokes addr octets.now)) }
{
    let mut room = [0; MOST_DIGITS];
    let addr = number_digits(addr, &mut room);
    write_octets_behind(writer, &[b"poke ", addr, b" "], octets)
}

/// Writes octets in hexadecimal digits behind words.
fn write_octets_behind<W: Write>(
    writer: &mut W,
    words: &[&[u8]],
    octets: &[u8],
) -> Result<(), WriteFailed>
    ensures writes { Writes (W.contents writer.old) (W.contents writer.new) result
        (octets_behind (flat_map (λ piece. piece.now) words.now) octets.now) }
{
    write_pieces(writer, words)?;
    write_octets(writer, octets)
}

/// Writes what an event was: of octets how many they are.
fn write_told<W: Write>(writer: &mut W, event: Event<'_>) -> Result<(), WriteFailed>
    ensures writes { Writes (W.contents writer.old) (W.contents writer.new) result (told_words (plain event.entry)) }
{
    match event {
        Event::Poke(addr, octets) => write_told_poke(writer, addr, octets),
        Event::Arrive(frame) => write_told_frame(writer, frame),
        _ => write_said(writer, event),
    }
}

/// Writes where octets were to be written, and how many they are.
fn write_told_poke<W: Write>(writer: &mut W, addr: u64, octets: &[u8]) -> Result<(), WriteFailed>
    ensures writes { Writes (W.contents writer.old) (W.contents writer.new) result
        (told_words (pokes addr octets.now)) }
{
    let mut digits = Buffer::new();
    let number = digits.format(octets.len()).as_bytes();
    let mut room = [0; MOST_DIGITS];
    let addr = number_digits(addr, &mut room);
    write_pieces(writer, &[b"poke ", addr, b" length ", number])
}

/// Writes how many octets a frame has.
fn write_told_frame<W: Write>(writer: &mut W, frame: &[u8]) -> Result<(), WriteFailed>
    ensures writes { Writes (W.contents writer.old) (W.contents writer.new) result (told_words (arrives frame.now)) }
{
    write_number(writer, b"arrive length ", frame.len() as u64)
}
