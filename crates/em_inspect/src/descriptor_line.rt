//! A descriptor as a line.
ghost use Rattle.std.specs.Prelude.{◌≡◌, decimal};
ghost use Rattle.em_text.specs.Writer.{Writes};
ghost use Rattle.em_inspect.specs.DescriptorText.{descriptor_text, fields_line, mark_text, outside_line, owner_text};
ghost use Rattle.em_inspect.specs.TroubleText.{over_text, trouble_text};

use crate::descriptor::{Descriptor, Fields};
use crate::piece::{Piece, write_line};
use crate::ring::Owner;
use crate::trouble::Trouble;
use em_text::{WriteFailed, write_pieces, write_whole};
use itoa::Buffer;
use std::io::Write;

/// Writes a descriptor as a line.
pub fn write_descriptor<W: Write>(
    writer: &mut W,
    descriptor: &Descriptor,
) -> Result<(), WriteFailed>
    ensures writes { Writes (W.contents writer.old) (W.contents writer.new) result (descriptor_text descriptor.now) }
{
    match &descriptor.fields {
        Some(fields) => write_fields(writer, descriptor, fields),
        None => write_outside(writer, descriptor),
    }
}

fn write_fields<W: Write>(
    writer: &mut W,
    descriptor: &Descriptor,
    fields: &Fields,
) -> Result<(), WriteFailed>
    ensures writes { Writes (W.contents writer.old) (W.contents writer.new) result
        (fields_line descriptor.now fields.now) }
{
    write_line(
        writer,
        &[
            Piece::Text(mark(descriptor.is_head, b">")),
            Piece::Text(mark(descriptor.is_tail, b"<")),
            Piece::Column(descriptor.index),
            Piece::Text(b"  at "),
            Piece::Address(descriptor.address),
            Piece::Text(b"  buffer "),
            Piece::Address(u128::from(fields.buffer)),
            Piece::Text(b"  length "),
            Piece::Column(u32::from(fields.length)),
            Piece::Text(owner_word(&descriptor.owner)),
            Piece::Bits(fields.bits),
            Piece::Trouble(descriptor.trouble),
            Piece::Text(b"\n"),
        ],
    )
}

/// Writes the line of a descriptor of which nothing is known but where it lies.
fn write_outside<W: Write>(writer: &mut W, descriptor: &Descriptor) -> Result<(), WriteFailed>
    ensures writes { Writes (W.contents writer.old) (W.contents writer.new) result (outside_line descriptor.now) }
{
    write_line(
        writer,
        &[
            Piece::Text(mark(descriptor.is_head, b">")),
            Piece::Text(mark(descriptor.is_tail, b"<")),
            Piece::Column(descriptor.index),
            Piece::Text(b"  at "),
            Piece::Address(descriptor.address),
            Piece::Trouble(descriptor.trouble),
            Piece::Text(b"\n"),
        ],
    )
}

/// The mark of the head or the tail, where it stands here.
fn mark(here: bool, mark: &'static [u8]) -> &'static [u8]
    ensures { result.now ≡ mark_text here mark.now }
{
    if here { mark } else { b" " }
}

fn owner_word(owner: &Owner) -> &'static [u8]
    ensures { result.now ≡ owner_text owner.now }
{
    match owner {
        Owner::Adapter => b"  adapter",
        Owner::Driver => b"   driver",
    }
}

/// Writes what is wrong with a descriptor, if anything is.
pub(crate) fn write_trouble<W: Write>(
    writer: &mut W,
    trouble: Option<Trouble>,
) -> Result<(), WriteFailed>
    ensures writes { Writes (W.contents writer.old) (W.contents writer.new) result (trouble_text trouble) }
{
    let Some(trouble) = trouble else {
        return Ok(());
    };
    match trouble {
        Trouble::Outside => write_whole(writer, b"  it lies outside memory"),
        Trouble::Extended => write_whole(writer, b"  its format is the extended one"),
        Trouble::NoLength => write_whole(writer, b"  its length is 0"),
        Trouble::TooLong => write_whole(writer, b"  its length is above 16380"),
        Trouble::BufferOutside => write_whole(writer, b"  its buffer lies outside memory"),
        Trouble::OverRing => write_whole(writer, b"  its buffer lies over the ring"),
        Trouble::OverBuffer(other) => write_over(writer, other),
    }
}

fn write_over<W: Write>(writer: &mut W, other: u32) -> Result<(), WriteFailed>
    ensures writes { Writes (W.contents writer.old) (W.contents writer.new) result (over_text other) }
{
    let mut digits = Buffer::new();
    write_pieces(
        writer,
        &[
            b"  its buffer lies over that of ",
            digits.format(other).as_bytes(),
        ],
    )
}
