//! Ethernet frames.
ghost use Rattle.std.specs.Prelude.{◌≡◌, ◌+◌, ◌<◌, ◌≤◌, [], ◌++◌, IsTrue, length, slice_index};
ghost use Rattle.em_text.specs.Writer.{Writes};
ghost use Rattle.em_inspect.specs.Piece.{cfi_text, kind_text, tag_text};
ghost use Rattle.em_inspect.specs.Frame.{address_at, frame_text, heading_in, is_tagged, number_at};
ghost use Rattle.em_inspect.specs.Frame.{stored_heading, stored_line, stored_text};

use crate::lines::write_lines_in_two;
use crate::piece::{Cell, Piece, write_line};
use em_rx::StoredFrame;
use em_text::{WriteFailed, octet_digits, write_pieces};
use itoa::Buffer;
use std::io::Write;

/// How many octets an Ethernet address has.
const ADDRESS: usize = 6;

/// How many octets stand before what a frame carries,
const LEAST: usize = 14;

/// and where it has a tag.
const LEAST_TAGGED: usize = 18;

/// Where the type stands, the tag, and the type behind a tag.
const TYPE: usize = 12;

const TAG: usize = 14;

const TYPE_BEHIND_TAG: usize = 16;

/// The type that says that a tag follows (IEEE 802.1Q).
const VLAN_TYPE: u16 = 0x8100;

/// The tag's CFI bit, and the lowest bit of its priority; its VLAN lies below.
const CFI: u16 = 0x1000;

const PRIORITY: u16 = 0x2000;

/// The greatest number that is a length and no type.
const MOST_LENGTH: u16 = 1500;

/// What stands before the octets that a frame carries.
#[derive(Clone, Copy, Debug, PartialEq, Eq)]
pub struct Heading {
    /// The destination's address.
    pub to: [u8; ADDRESS],
    /// The source's.
    pub from: [u8; ADDRESS],
    /// The 16 bits of an IEEE 802.1Q tag, where the frame has one.
    pub tag: Option<u16>,
    /// The type of what the frame carries; up to 1,500, how many octets that is.
    pub kind: u16,
}

impl Heading {
    /// The heading of a frame; none where it has fewer than 14 octets.
    pub fn of(frame: &[u8]) -> Option<Heading>
        ensures { result ≡ heading_in frame.now }
    {
        Heading::of_stored(&in_one_piece(frame))
    }

    /// The heading of a frame of the FIFO; none where fewer than 14 octets of it lie there. A tag that was taken out of
    /// the frame is its tag.
    pub fn of_stored(frame: &StoredFrame<'_>) -> Option<Heading>
        ensures { result ≡ stored_heading (frame.now.front.now ++ frame.now.back.now) frame.now.tag }
    {
        if size_of(frame) < LEAST {
            return None;
        }
        let (tag, kind_at) = match frame.tag {
            Some(tag) => (Some(tag), TYPE),
            None if is_tagged(frame) => (Some(number_at(frame, TAG)), TYPE_BEHIND_TAG),
            None => (None, TYPE),
        };
        Some(Heading {
            to: address_at(frame, 0),
            from: address_at(frame, ADDRESS),
            tag,
            kind: number_at(frame, kind_at),
        })
    }
}

/// A frame that lies in one piece, as one of the FIFO that no tag was taken out of.
fn in_one_piece(frame: &[u8]) -> StoredFrame<'_>
    ensures front { result.front.now ≡ frame.now }
    ensures back { result.back.now ≡ [] }
    ensures tag { result.tag ≡ None }
{
    StoredFrame {
        front: frame,
        back: b"",
        tag: None,
    }
}

/// How many octets of a frame lie there.
fn size_of(frame: &StoredFrame<'_>) -> usize
    ensures { result ≡ length (frame.now.front.now ++ frame.now.back.now) }
{
    frame.front.len() + frame.back.len()
}

/// Whether a tag lies in a frame, and a type behind it.
fn is_tagged(frame: &StoredFrame<'_>) -> bool
    ensures tagged { result ≡ is_tagged (frame.now.front.now ++ frame.now.back.now) }
    ensures long { IsTrue result → 18 ≤ length (frame.now.front.now ++ frame.now.back.now) }
{
    size_of(frame) >= LEAST_TAGGED && number_at(frame, TYPE) == VLAN_TYPE
}

/// Two octets, the higher first.
fn number_at(frame: &StoredFrame<'_>, at: usize) -> u16
    requires { at + 2 ≤ length (frame.now.front.now ++ frame.now.back.now) }
    ensures { result ≡ number_at (frame.now.front.now ++ frame.now.back.now) at }
{
    u16::from(octet_at(frame, at)) * 256 + u16::from(octet_at(frame, at + 1))
}

fn address_at(frame: &StoredFrame<'_>, at: usize) -> [u8; ADDRESS]
    requires { at + 6 ≤ length (frame.now.front.now ++ frame.now.back.now) }
    ensures { result ≡ address_at (frame.now.front.now ++ frame.now.back.now) at }
{
    [
        octet_at(frame, at),
        octet_at(frame, at + 1),
        octet_at(frame, at + 2),
        octet_at(frame, at + 3),
        octet_at(frame, at + 4),
        octet_at(frame, at + 5),
    ]
}

fn octet_at(frame: &StoredFrame<'_>, at: usize) -> u8
    requires { at < length (frame.now.front.now ++ frame.now.back.now) }
    ensures { result ≡ slice_index (frame.now.front.now ++ frame.now.back.now) at }
{
    let in_front = frame.front.len();
    if at < in_front {
        frame.front[at]
    } else {
        frame.back[at - in_front]
    }
}

/// Writes a frame: a line of its heading, unless it has fewer than 14 octets, and its octets as lines of 16.
pub fn write_frame<W: Write>(writer: &mut W, frame: &[u8]) -> Result<(), WriteFailed>
    ensures writes { Writes (W.contents writer.old) (W.contents writer.new) result (frame_text frame.now) }
{
    write_stored_frame(writer, &in_one_piece(frame))
}

/// Writes a frame of the FIFO as [`write_frame`] writes one. A tag that was taken out of it stands in the heading, and
/// not among the octets.
pub fn write_stored_frame<W: Write>(
    writer: &mut W,
    frame: &StoredFrame<'_>,
) -> Result<(), WriteFailed>
    ensures writes { Writes (W.contents writer.old) (W.contents writer.new) result
        (stored_text (frame.now.front.now ++ frame.now.back.now) frame.now.tag) }
{
    write_heading(writer, frame)?;
    write_lines_in_two(writer, 0, frame.front, frame.back)
}

/// Writes the line of a frame's heading, if it has one.
fn write_heading<W: Write>(writer: &mut W, frame: &StoredFrame<'_>) -> Result<(), WriteFailed>
    ensures writes { Writes (W.contents writer.old) (W.contents writer.new) result
        (stored_line (frame.now.front.now ++ frame.now.back.now) frame.now.tag) }
{
    let Some(heading) = Heading::of_stored(frame) else {
        return Ok(());
    };
    write_line(
        writer,
        &[
            Piece::Text(b"to "),
            Piece::Digits(&heading.to[..1]),
            Piece::Cells(Cell::Behind(b':'), &heading.to[1..]),
            Piece::Text(b"  from "),
            Piece::Digits(&heading.from[..1]),
            Piece::Cells(Cell::Behind(b':'), &heading.from[1..]),
            Piece::Tag(heading.tag),
            Piece::Kind(heading.kind),
            Piece::Text(b"  "),
            Piece::Number(size_of(frame) as u64),
            Piece::Text(b" octets\n"),
        ],
    )
}

/// Writes the tag of a frame, if it has one.
pub(crate) fn write_tag<W: Write>(writer: &mut W, tag: Option<u16>) -> Result<(), WriteFailed>
    ensures writes { Writes (W.contents writer.old) (W.contents writer.new) result (tag_text tag) }
{
    let Some(tag) = tag else {
        return Ok(());
    };
    let mut vlan = Buffer::new();
    let mut priority = Buffer::new();
    write_pieces(
        writer,
        &[
            b"  tag VLAN ",
            vlan.format(tag % CFI).as_bytes(),
            cfi_word(tag),
            b" priority ",
            priority.format(tag / PRIORITY).as_bytes(),
        ],
    )
}

/// Says that a tag has its CFI bit.
fn cfi_word(tag: u16) -> &'static [u8]
    ensures { result.now ≡ cfi_text tag }
{
    if tag / CFI % 2 == 1 { b" CFI" } else { b"" }
}

/// Writes the type of what a frame carries, or how many octets that is.
pub(crate) fn write_kind<W: Write>(writer: &mut W, kind: u16) -> Result<(), WriteFailed>
    ensures writes { Writes (W.contents writer.old) (W.contents writer.new) result (kind_text kind) }
{
    if kind <= MOST_LENGTH {
        let mut digits = Buffer::new();
        return write_pieces(writer, &[b"  length ", digits.format(kind).as_bytes()]);
    }
    let [high, low] = kind.to_be_bytes();
    write_pieces(
        writer,
        &[b"  type ", &octet_digits(high), &octet_digits(low)],
    )
}
