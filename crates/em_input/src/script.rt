//! A whole script from a reader, of the length that a log of a real driver has.
ghost use Rattle.std.specs.Prelude.{◌≡◌, ◌+◌, ◌<◌, ◌≤◌, ℕ, List, Option, length, take, vec_len, IfOk, OnOk, IfSome, IsErrOf};
ghost use Rattle.std.specs.Io.KnownBytes.{Consumes, IsAtEnd};
ghost use Rattle.em_input.specs.Script.{is_compressed, most_input};

use std::alloc::{AllocError, Global};
use std::io::{self, Read};

/// The longest script, in octets.
pub const MOST_INPUT: usize = 1_073_741_824;

/// As many reads, each of an octet or more, give more than the longest script.
const MOST_READS: usize = MOST_INPUT + 1;

/// For how many octets room is made at once: each read may be a call of the system.
const PIECE_OCTETS: usize = 65_536;

/// Why a script could not be read.
#[derive(Clone, Copy)]
pub enum InputFault {
    /// The reader failed.
    Read,
    /// The script is longer than [`MOST_INPUT`].
    TooLarge,
    /// Memory was refused.
    Memory,
}

/// Reads all that the reader gives, by at most [`MOST_INPUT`] + 1 calls of `read`.
///
/// Where it fails, how far the reader was read is left open.
pub fn read_input<R: Read>(alloc: Global, reader: &mut R) -> Result<Vec<u8>, InputFault>
    ensures all { IfOk result (λ script.
        Consumes (R.remaining reader.old) (R.remaining reader.new) script.items) }
    ensures end { OnOk result (IsAtEnd (R.remaining reader.new)) }
    ensures short { IfOk result (λ script. vec_len script ≤ most_input) }
    ensures too_large { IsErrOf result InputFault.TooLarge →
        IfSome (R.remaining reader.old) (λ octets. most_input < length octets) }
{
    let mut script = Vec::new(alloc);
    let mut filled = 0;
    for reads in 0..MOST_READS {
        if make_room(&mut script, filled).is_err() {
            return Err(InputFault::Memory);
        }
        let Ok(count) = read_behind(reader, &mut script, filled) else {
            return Err(InputFault::Read);
        };
        if count == 0 {
            script.truncate(filled);
            return Ok(script);
        }
        if count > MOST_INPUT - filled {
            return Err(InputFault::TooLarge);
        }
        filled += count;
    }
    unreachable!()
}

/// Sees that there is room behind the first `filled` octets, which stay.
fn make_room(script: &mut Vec<u8>, filled: usize) -> Result<(), AllocError>
    requires within { filled ≤ vec_len script.old }
    requires short { filled ≤ most_input }
    ensures room { OnOk result (filled < vec_len script.new) }
    ensures filled { OnOk result (take filled script.new.items ≡ take filled script.old.items) }
{
    if filled == script.len() {
        script.resize(filled + PIECE_OCTETS, 0)?;
    }
    Ok(())
}

/// Reads octets behind the first `filled`, as many as the reader gives in one call, and gives how many they are.
fn read_behind<R: Read>(reader: &mut R, script: &mut Vec<u8>, filled: usize) -> io::Result<usize>
    requires { filled < vec_len script.old }
    ensures within { IfOk result (λ count. filled + count ≤ vec_len script.new) }
    ensures read { IfOk result (λ count. (from : Option (List ℕ))
        → Consumes from (R.remaining reader.old) (take filled script.old.items)
        → Consumes from (R.remaining reader.new) (take (filled + count) script.new.items)) }
    ensures end { IfOk result (λ count. count ≡ 0 → IsAtEnd (R.remaining reader.new)) }
{
    let (_, room) = script.as_mut_slice().split_at_mut(filled);
    reader.read(room)
}

/// Whether octets are those of a file that gzip wrote.
pub fn is_compressed(text: &[u8]) -> bool
    ensures { result ≡ is_compressed text.now }
{
    matches!(text, [0x1F, 0x8B, ..])
}
