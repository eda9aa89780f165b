//! The lines, each its octets.
ghost use Rattle.std.specs.Prelude.{◌≡◌, ◌≤◌, ◌∷◌, ◌++◌, [], OnOk, OnErr, insert, length, slice_get};
ghost use Rattle.std.specs.Option.{option_map};
ghost use Rattle.em_tape.specs.Texts.{texts};

use crate::text::Text;
use em_text::{WriteFailed, write_number_line};
use std::alloc::{AllocError, Global};

/// Adds a line behind the last.
pub(crate) fn push_line(alloc: Global, lines: &mut Vec<Text>, line: &[u8]) -> Result<(), AllocError>
    ensures ok { OnOk result (texts lines.new.items ≡ texts lines.old.items ++ line.now ∷ []) }
    ensures err { OnErr result (texts lines.new.items ≡ texts lines.old.items) }
{
    let text = Text::from_slice(alloc, line)?;
    lines.push(text)?;
    Ok(())
}

/// Puts a line behind the first so many.
pub(crate) fn put_line(
    alloc: Global,
    lines: &mut Vec<Text>,
    before: usize,
    line: &[u8],
) -> Result<(), AllocError>
    requires { before ≤ length lines.old.items }
    ensures ok { OnOk result (texts lines.new.items ≡ insert (texts lines.old.items) before line.now) }
    ensures err { OnErr result (texts lines.new.items ≡ texts lines.old.items) }
{
    let text = Text::from_slice(alloc, line)?;
    put_text(lines, before, text)
}

fn put_text(lines: &mut Vec<Text>, before: usize, text: Text) -> Result<(), AllocError>
    requires { before ≤ length lines.old.items }
    ensures ok { OnOk result (texts lines.new.items ≡ insert (texts lines.old.items) before text.items) }
    ensures err { OnErr result (texts lines.new.items ≡ texts lines.old.items) }
{
    lines.insert(before, text)?;
    Ok(())
}

/// The text of the line behind the first so many.
pub(crate) fn text_at(lines: &[Text], before: usize) -> Option<&[u8]>
    ensures { option_map (λ text. text.now) result ≡ slice_get (texts lines.now) before }
{
    match lines.get(before) {
        Some(line) => Some(line.as_slice()),
        None => None,
    }
}

/// A line that takes events back. No contract says so: what it does is only tested.
pub(crate) fn back_line(alloc: Global, events: u64) -> Result<Vec<u8>, WriteFailed> {
    let mut line = Vec::new(alloc);
    write_number_line(&mut line, b"back ", events)?;
    let _newline = line.pop();
    Ok(line)
}
