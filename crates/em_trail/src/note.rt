//! What is kept of an event.
ghost use Rattle.std.specs.Prelude.{◌≡◌};
ghost use Rattle.em_step.specs.Event.{plain};
ghost use Rattle.em_trail.specs.Note.{plain_note, note_of, value_of, arrived, received, sent, stepped};

use crate::dma::Dma;
use em_step::{Answer, Event, Reason};
use std::mem::size_of;

/// What kind of event it was, with what came of it.
#[derive(Clone, Copy, PartialEq, Eq, Debug)]
pub enum Kind {
    /// A read of a register.
    Read,
    /// A write of a register.
    Write,
    /// A write of octets to guest memory.
    Poke,
    /// A frame that arrived and was stored.
    Stored,
    /// A frame that arrived and was dropped.
    Dropped(Reason),
    /// The link went up, or was up.
    LinkUp,
    /// The link went down, or was down.
    LinkDown,
    /// A step of the receive engine that had nothing to do.
    ReceiveIdle,
    /// A step of the receive engine that wrote a piece of a frame.
    Wrote,
    /// A step of the transmit engine that had nothing to do.
    TransmitIdle,
    /// A step of the transmit engine that fetched a buffer and sent no frame.
    Fetched,
    /// A step of the transmit engine that sent a frame.
    Sent,
}

/// An event that was performed, in 40 octets.
#[derive(Clone, Copy, PartialEq, Eq, Debug)]
pub struct Note {
    /// What the caller calls it by: a line's number, a program counter.
    pub tag: u64,
    /// Of an access the register's offset, of a memory write its address, of an engine's step that was not idle its
    /// descriptor's address; else 0.
    pub at: u64,
    /// Of an engine's step that was not idle, where in guest memory the octets lie that it wrote into its buffer or read
    /// there; else 0, as of no octets.
    pub buffer: u64,
    /// How many octets: of an access 4, of a memory write those written, of an arrival or a frame that was sent
    /// the frame's; else 0.
    pub length: u32,
    /// Of a read the value that it gave, of a write the value written, of an engine's step that was not idle the
    /// descriptor's index; else 0.
    pub value: u32,
    /// How many octets an engine's step wrote into its buffer or read there; else 0.
    pub octets: u32,
    /// What it was.
    pub kind: Kind,
}

const _: () = prove!(size_of::<Note>() == 40);

/// How many octets an access has.
const WORD: u32 = 4;

/// One more than the greatest 32-bit length.
const LENGTHS: usize = 0x1_0000_0000;

/// The note of an event that had this to do with guest memory, and was answered so.
#[inline(always)]
pub(crate) fn note_of(dma: Dma, event: Event<'_>, answer: Answer, tag: u64) -> Note
    ensures { result ≡ note_of dma (plain event.entry) answer tag }
{
    match event {
        Event::Read(offset) => plain_note(
            tag,
            u64::from(offset),
            WORD,
            value_of(answer),
            Kind::Read,
        ),
        Event::Write(offset, value) => plain_note(tag, u64::from(offset), WORD, value, Kind::Write),
        Event::Poke(addr, octets) => {
            plain_note(tag, addr, (octets.len() % LENGTHS) as u32, 0, Kind::Poke)
        }
        Event::Arrive(frame) => plain_note(
            tag,
            0,
            (frame.len() % LENGTHS) as u32,
            0,
            arrived(answer),
        ),
        Event::Link(true) => plain_note(tag, 0, 0, 0, Kind::LinkUp),
        Event::Link(false) => plain_note(tag, 0, 0, 0, Kind::LinkDown),
        Event::RxStep => received(dma, answer, tag),
        Event::TxStep => sent(dma, answer, tag),
    }
}

/// The note of an event that is no step of an engine, or an idle one.
#[inline(always)]
fn plain_note(tag: u64, at: u64, length: u32, value: u32, kind: Kind) -> Note
    ensures { result ≡ plain_note tag at length value kind }
{
    Note {
        tag,
        at,
        buffer: 0,
        length,
        value,
        octets: 0,
        kind,
    }
}

/// The note of a step of an engine: how many octets its frame has, and its descriptor's index.
fn stepped(dma: Dma, tag: u64, frame: u32, index: u32, kind: Kind) -> Note
    ensures { result ≡ stepped dma tag frame index kind }
{
    Note {
        tag,
        at: dma.descriptor,
        buffer: dma.buffer.at,
        length: frame,
        value: index,
        octets: (dma.buffer.len % LENGTHS as u64) as u32,
        kind,
    }
}

/// What a read gave.
fn value_of(answer: Answer) -> u32
    ensures { result ≡ value_of answer }
{
    match answer {
        Answer::Value(value) => value,
        _ => 0,
    }
}

/// What became of a frame that arrived.
fn arrived(answer: Answer) -> Kind
    ensures { result ≡ arrived answer }
{
    match answer {
        Answer::Dropped(reason) => Kind::Dropped(reason),
        _ => Kind::Stored,
    }
}

/// The note of a step of the receive engine.
fn received(dma: Dma, answer: Answer, tag: u64) -> Note
    ensures { result ≡ received dma answer tag }
{
    match answer {
        Answer::Wrote { index } => stepped(dma, tag, 0, index, Kind::Wrote),
        _ => plain_note(tag, 0, 0, 0, Kind::ReceiveIdle),
    }
}

/// The note of a step of the transmit engine.
fn sent(dma: Dma, answer: Answer, tag: u64) -> Note
    ensures { result ≡ sent dma answer tag }
{
    match answer {
        Answer::Fetched { index } => stepped(dma, tag, 0, index, Kind::Fetched),
        Answer::Sent { index, octets } => stepped(dma, tag, octets, index, Kind::Sent),
        _ => plain_note(tag, 0, 0, 0, Kind::TransmitIdle),
    }
}
