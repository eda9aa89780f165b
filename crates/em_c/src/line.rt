//! Lines of text in structs of C.
ghost use Rattle.std.specs.Prelude.{◌≡◌};
ghost use Rattle.em_c.specs.Line as the;

use crate::refused::Refused;

/// How many octets a line has in a struct, with the zeros behind it: more than any text that stands there.
pub const LINE: usize = 256;

/// A text as it stands in a struct; one that leaves no zero behind it has no room.
pub fn line_of(text: &[u8]) -> Result<[u8; LINE], Refused>
    ensures { the.IsTold result (the.line_of text.now) }
{
    if text.len() >= LINE {
        return Err(Refused::Room);
    }
    let mut line = [0u8; LINE];
    line[..text.len()].copy_from_slice(text);
    Ok(line)
}

/// A text without its newline.
pub fn front_of(text: &[u8]) -> &[u8]
    ensures { result.now ≡ the.without_end text.now }
{
    &text[..text.len().saturating_sub(1)]
}
