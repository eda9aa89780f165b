//! The lines of a script.
ghost use Rattle.std.specs.Prelude.{◌≡◌, ◌<◌, ◌≤◌, ◌∷◌, length};
ghost use Rattle.std.specs.List.{position_or_len};
ghost use Rattle.em_text.specs.Lines.{is_newline, lines_of};

use memchr::memchr_iter;

/// What ends a line.
const NEWLINE: u8 = b'\n';

/// The first line of a script without its newline, and the script behind it.
///
/// What follows the last newline of a script is a line too, unless it is empty.
#[inline]
pub fn next_line(script: &[u8]) -> (&[u8], &[u8])
    requires { 0 < length script.now }
    ensures lines { lines_of script.now ≡ result.0.now ∷ lines_of result.1.now }
    ensures within { length result.0.now ≤ length script.now }
    ensures shorter { length result.1.now < length script.now }
{
    let end = line_len(script);
    if end == script.len() {
        return (script, &script[end..]);
    }
    (&script[..end], &script[end + 1..])
}

/// How many octets a script has before its first newline. Lines are short: the search for all
/// newlines looks nearby first, and the search for one takes long strides.
#[inline]
fn line_len(script: &[u8]) -> usize
    ensures value { result ≡ position_or_len is_newline script.now }
    ensures within { result ≤ length script.now }
{
    match memchr_iter(NEWLINE, script).next() {
        Some(end) => end,
        None => script.len(),
    }
}
