//! A ring as text.
ghost use Rattle.std.specs.Prelude.{◌≡◌, ◌+◌, ◌≤◌};
ghost use Rattle.em_text.specs.Writer.{Writes};
ghost use Rattle.em_inspect.specs.Piece.{buffers_text};
ghost use Rattle.em_inspect.specs.RingText.{descriptors_text, empty_line, enabled_text, is_outside, line_of_index};
ghost use Rattle.em_inspect.specs.RingText.{memory_text, place_text, ring_line, ring_text, shown};
ghost use Rattle.em_inspect.specs.RingText.{shown_from, side_text};

use crate::descriptor_line::write_descriptor;
use crate::piece::{Piece, write_line};
use crate::ring::{Side, SidedRing};
use em_journal::Machine;
use em_regs::DESCRIPTOR_OCTETS;
use em_text::{WriteFailed, write_pieces};
use itoa::Buffer;
use std::io::Write;

/// The most descriptors that a window of [`SidedRing::shown_from`] has.
pub const MOST_SHOWN: u32 = 64;

/// How many of them stand before the head.
const SHOWN_BEFORE_HEAD: u32 = 8;

impl SidedRing {
    /// The first of [`MOST_SHOWN`] descriptors to show where nothing else is asked for: 0 where the ring has no more;
    /// else eight before the head, or so many before the ring's end.
    pub fn shown_from(&self) -> u32
        ensures { result ≡ shown_from self.now }
    {
        self.setup
            .head
            .saturating_sub(SHOWN_BEFORE_HEAD)
            .min(self.setup.count.saturating_sub(MOST_SHOWN))
    }

    /// Whether descriptor 0 lies outside guest memory, or part of it does.
    fn is_outside(&self, machine: &Machine) -> bool
        ensures { result ≡ is_outside self.now machine.now.present.base machine.now.present.memory }
    {
        let end = u128::from(self.setup.base) + DESCRIPTOR_OCTETS as u128;
        self.setup.base < machine.memory_base() || u128::from(machine.memory_end()) < end
    }
}

/// Writes a ring: a line of what the registers say, and a line for each of up to `most` descriptors from an index on.
/// A ring that has no descriptors, or whose descriptor 0 lies outside guest memory, has the first line alone.
///
/// For each line it looks at each descriptor of the ring, as [`SidedRing::descriptor`] does.
pub fn write_ring<W: Write>(
    writer: &mut W,
    machine: &Machine,
    ring: &SidedRing,
    from: u32,
    most: u32,
) -> Result<(), WriteFailed>
    ensures writes { Writes (W.contents writer.old) (W.contents writer.new) result
        (ring_text ring.now machine.now.present.base machine.now.present.memory from most) }
{
    let outside = ring.is_outside(machine);
    write_ring_line(writer, ring, outside)?;
    let shown = shown(ring, outside, from, most);
    write_descriptors(writer, machine, ring, from, shown)
}

/// How many descriptors are shown, of up to `most` from an index on.
fn shown(ring: &SidedRing, outside: bool, from: u32, most: u32) -> u32
    ensures shown { result ≡ shown ring.now outside from most }
    ensures bound { from + result ≤ 0xFFFF_FFFF }
{
    if outside {
        0
    } else {
        most.min(ring.setup.count.saturating_sub(from))
    }
}

/// Writes what the registers say of a ring.
fn write_ring_line<W: Write>(
    writer: &mut W,
    ring: &SidedRing,
    outside: bool,
) -> Result<(), WriteFailed>
    ensures writes { Writes (W.contents writer.old) (W.contents writer.new) result (ring_line ring.now outside) }
{
    if ring.setup.count == 0 {
        return write_empty_line(writer, ring);
    }
    write_line(
        writer,
        &[
            Piece::Text(side_word(&ring.side)),
            Piece::Text(b" ring at "),
            Piece::Address(u128::from(ring.setup.base)),
            Piece::Text(b"  "),
            Piece::Number(u64::from(ring.setup.count)),
            Piece::Text(b" descriptors  head "),
            Piece::Number(u64::from(ring.setup.head)),
            Piece::Text(place_word(ring, ring.setup.head, b" (>)")),
            Piece::Text(b"  tail "),
            Piece::Number(u64::from(ring.setup.tail)),
            Piece::Text(place_word(ring, ring.setup.tail, b" (<)")),
            Piece::Buffers(ring.side),
            Piece::Text(enabled_word(ring.setup.enabled)),
            Piece::Text(memory_word(outside)),
            Piece::Text(b"\n"),
        ],
    )
}

/// Says that a ring has no descriptors.
fn write_empty_line<W: Write>(writer: &mut W, ring: &SidedRing) -> Result<(), WriteFailed>
    ensures writes { Writes (W.contents writer.old) (W.contents writer.new) result (empty_line ring.now) }
{
    write_line(
        writer,
        &[
            Piece::Text(side_word(&ring.side)),
            Piece::Text(b" ring at "),
            Piece::Address(u128::from(ring.setup.base)),
            Piece::Text(b"  no descriptors"),
            Piece::Text(enabled_word(ring.setup.enabled)),
            Piece::Text(b"\n"),
        ],
    )
}

fn side_word(side: &Side) -> &'static [u8]
    ensures { result.now ≡ side_text side.now }
{
    match side {
        Side::Receive(_) => b"rx",
        Side::Transmit => b"tx",
    }
}

fn enabled_word(enabled: bool) -> &'static [u8]
    ensures { result.now ≡ enabled_text enabled }
{
    if enabled { b"  enabled" } else { b"  disabled" }
}

fn memory_word(outside: bool) -> &'static [u8]
    ensures { result.now ≡ memory_text outside }
{
    if outside { b"  outside memory" } else { b"" }
}

/// How the head or the tail is marked below, or that it stands past the last descriptor.
fn place_word(ring: &SidedRing, place: u32, mark: &'static [u8]) -> &'static [u8]
    ensures { result.now ≡ place_text ring.now place mark.now }
{
    if place < ring.setup.count {
        mark
    } else {
        b" past the last"
    }
}

/// Writes the size of the buffers, where the ring has one for all.
pub(crate) fn write_buffers<W: Write>(writer: &mut W, side: Side) -> Result<(), WriteFailed>
    ensures writes { Writes (W.contents writer.old) (W.contents writer.new) result (buffers_text side) }
{
    let Side::Receive(size) = side else {
        return Ok(());
    };
    let mut digits = Buffer::new();
    write_pieces(
        writer,
        &[b"  buffers of ", digits.format(size).as_bytes(), b" octets"],
    )
}

/// Writes so many descriptors from an index on.
fn write_descriptors<W: Write>(
    writer: &mut W,
    machine: &Machine,
    ring: &SidedRing,
    from: u32,
    shown: u32,
) -> Result<(), WriteFailed>
    requires { from + shown ≤ 0xFFFF_FFFF }
    ensures writes { Writes (W.contents writer.old) (W.contents writer.new) result
        (descriptors_text ring.now machine.now.present.base machine.now.present.memory from shown) }
{
    for k in 0..shown {
        write_descriptor_at(writer, machine, ring, from + k)?;
    }
    Ok(())
}

fn write_descriptor_at<W: Write>(
    writer: &mut W,
    machine: &Machine,
    ring: &SidedRing,
    index: u32,
) -> Result<(), WriteFailed>
    ensures writes { Writes (W.contents writer.old) (W.contents writer.new) result
        (line_of_index ring.now machine.now.present.base machine.now.present.memory index) }
{
    write_descriptor(writer, &ring.descriptor(machine, index))
}
