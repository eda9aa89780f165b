//! The script's lines.

use crate::clock::Moment;
use anyhow::{Result, bail};
use em_log::{RegisterAccess, Way};
use em_text::{octet_digits, write_octets_line, write_pieces, write_whole};
use std::io::Write;

/// How many digits of 32 bits an offset, which has 5, leaves out.
const HIGH_DIGITS: usize = 3;

/// How many digits a value has.
const VALUE_DIGITS: usize = 8;

/// The word for so many of a thing.
pub fn plural<'a>(count: u64, one: &'a str, many: &'a str) -> &'a str {
    if count == 1 { one } else { many }
}

/// Writes a text whole.
pub fn write_text<W: Write>(out: &mut W, text: &[u8]) -> Result<()> {
    match write_whole(out, text) {
        Ok(()) => Ok(()),
        Err(_) => bail!("the script cannot be written"),
    }
}

/// Writes the line of an access of four octets: `w 000D0 0000009D`, `r 000C0 = 00000004`, or `r 000C0` where the value
/// is not known; and when it was logged as a comment behind it, where that is known: ` # 1.500100`.
pub fn write_access<W: Write>(
    out: &mut W,
    way: Way,
    offset: u32,
    value: Option<u32>,
    moment: Option<Moment>,
) -> Result<()> {
    write_access_said(out, way, offset, value)?;
    if let Some(moment) = moment {
        write!(out, " # {moment}")?;
    }
    write_text(out, b"\n")
}

/// Writes what an access of four octets says.
#[inline]
fn write_access_said<W: Write>(
    out: &mut W,
    way: Way,
    offset: u32,
    value: Option<u32>,
) -> Result<()> {
    let digits = digits_of(offset);
    let offset = &digits[HIGH_DIGITS..];
    match value {
        Some(value) => {
            let value = digits_of(value);
            match way {
                Way::Write => write_parts(out, &[b"w ", offset, b" ", &value]),
                Way::Read => write_parts(out, &[b"r ", offset, b" = ", &value]),
            }
        }
        None => write_parts(out, &[b"r ", offset]),
    }
}

/// Writes pieces of a text.
fn write_parts<W: Write>(out: &mut W, pieces: &[&[u8]]) -> Result<()> {
    match write_pieces(out, pieces) {
        Ok(()) => Ok(()),
        Err(_) => bail!("the script cannot be written"),
    }
}

/// The 8 digits of a value.
fn digits_of(value: u32) -> [u8; VALUE_DIGITS] {
    let [first, second, third, last] = value.to_be_bytes();
    let [a, b] = octet_digits(first);
    let [c, d] = octet_digits(second);
    let [e, f] = octet_digits(third);
    let [g, h] = octet_digits(last);
    [a, b, c, d, e, f, g, h]
}

/// Writes an access of a register that the model lacks as a comment, with its line of the log and the register's name:
/// `# line 17: r 00010 = 00000000 (EECD), at 1.500100`.
pub fn write_missing<W: Write>(
    out: &mut W,
    line: u64,
    access: RegisterAccess,
    name: &str,
    moment: Option<Moment>,
) -> Result<()> {
    write_said(out, line, access)?;
    write!(out, " ({name})")?;
    write_moment(out, moment)
}

/// Writes an access of another size than four octets as a comment, with its line of the log and its size:
/// `# line 17: r 00008 = 00000083 (1 octet), at 1.500100`.
pub fn write_other_size<W: Write>(
    out: &mut W,
    line: u64,
    access: RegisterAccess,
    moment: Option<Moment>,
) -> Result<()> {
    write_said(out, line, access)?;
    let octets = access.width.octets();
    write!(out, " ({octets} {})", plural(octets, "octet", "octets"))?;
    write_moment(out, moment)
}

/// Writes the end of a comment: when what it tells was logged, where that is known.
fn write_moment<W: Write>(out: &mut W, moment: Option<Moment>) -> Result<()> {
    if let Some(moment) = moment {
        write!(out, ", at {moment}")?;
    }
    write_text(out, b"\n")
}

/// Writes the begin of a comment: the line of the log, and what it says.
fn write_said<W: Write>(out: &mut W, line: u64, access: RegisterAccess) -> Result<()> {
    let offset = access.offset;
    write!(out, "# line {line}: ")?;
    match (access.way, access.value) {
        (Way::Read, Some(value)) => write!(out, "r {offset:05X} = {value:08X}")?,
        (Way::Read, None) => write!(out, "r {offset:05X}")?,
        (Way::Write, Some(value)) => write!(out, "w {offset:05X} {value:08X}")?,
        (Way::Write, None) => write!(out, "w {offset:05X}")?,
    }
    Ok(())
}

/// Writes how many more reads gave what the line before says, and the log's line of the last of them:
/// `# 31 more reads gave the same, the last in line 160, at 1.500100`.
pub fn write_poll<W: Write>(
    out: &mut W,
    more: u64,
    last: u64,
    moment: Option<Moment>,
) -> Result<()> {
    let reads = plural(more, "read", "reads");
    write!(
        out,
        "# {more} more {reads} gave the same, the last in line {last}"
    )?;
    write_moment(out, moment)
}

/// How many octets of a line of the log a comment has.
const MOST_SHOWN: usize = 4_096;

/// Writes a line of the log as a comment.
pub fn write_kept<W: Write>(out: &mut W, line: u64, text: &[u8]) -> Result<()> {
    write!(out, "# line {line}: ")?;
    let shown = text.len().min(MOST_SHOWN);
    write_parts(out, &[&text[..shown], b"\n"])
}

/// How many octets one line of the script writes to memory.
const MOST_POKE: usize = 16_384;

/// Writes the lines that write octets to memory: `poke 2000 00200000`.
pub fn write_memory<W: Write>(out: &mut W, address: u64, octets: &[u8]) -> Result<()> {
    let mut at = address;
    for part in octets.chunks(MOST_POKE) {
        write!(out, "poke {at:X} ")?;
        if write_octets_line(out, part).is_err() {
            bail!("the script cannot be written");
        }
        at = at.wrapping_add(part.len() as u64);
    }
    Ok(())
}

/// How many octets of a line are told.
const MOST_TOLD: usize = 100;

/// Writes that a line looks like an access, and what it says: `line 3 looks like an access, and has none of the forms
/// that are read: read at 0x8 = 0x5`. What is no printed ASCII is a dot.
pub fn write_unlike<W: Write>(out: &mut W, line: u64, text: &[u8]) -> Result<()> {
    write!(
        out,
        "line {line} looks like an access, and has none of the forms that are read: "
    )?;
    for octet in text.iter().take(MOST_TOLD) {
        let shown = if (b' '..=b'~').contains(octet) {
            *octet
        } else {
            b'.'
        };
        write_text(out, &[shown])?;
    }
    write_text(out, b"\n")
}
