//! Lines that look like accesses, whatever form they have.
ghost use Rattle.std.specs.Prelude.{◌≡◌};
ghost use Rattle.std.specs.Str.{str_eq_ignore_ascii_case};
ghost use Rattle.em_log.specs.Likeness.{begins_so, names_way, has_hex, looks_like_access};

use crate::number::is_hex;

/// Whether a line looks like an access of a register, in whatever form: `read` or `write` stands in it, in either case of
/// its letters and with no letter before it, and somewhere behind that `0x`.
pub fn looks_like_access(line: &[u8]) -> bool
    ensures { result ≡ looks_like_access line.now }
{
    let mut rest = line;
    let mut behind_letter = false;
    while let [first, tail @ ..] = rest {
        if !behind_letter && names_way(rest) && has_hex(tail) {
            return true;
        }
        behind_letter = first.is_ascii_alphabetic();
        rest = tail;
    }
    false
}

/// Whether a text begins with the name of a way.
fn names_way(text: &[u8]) -> bool
    ensures { result ≡ names_way text.now }
{
    begins_so(text, b"read") || begins_so(text, b"write")
}

/// Whether a text begins with these letters, in either case.
#[inline(always)]
fn begins_so<const N: usize>(text: &[u8], name: &[u8; N]) -> bool
    ensures { result ≡ begins_so text.now name.now }
{
    text.len() >= N && same_letters(&text[..N], name)
}

/// Whether two texts are the same, in either case of their letters.
#[inline(always)]
fn same_letters(text: &[u8], other: &[u8]) -> bool
    ensures { result ≡ str_eq_ignore_ascii_case text.now other.now }
{
    text.eq_ignore_ascii_case(other)
}

/// Whether `0x` stands in a text.
fn has_hex(text: &[u8]) -> bool
    ensures { result ≡ has_hex text.now }
{
    let mut rest = text;
    while let [_, tail @ ..] = rest {
        if is_hex(rest) {
            return true;
        }
        rest = tail;
    }
    false
}
