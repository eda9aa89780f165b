//! A whole script from a reader.
ghost use Rattle.std.specs.Prelude.{◌≡◌, ◌+◌, ◌<◌, ◌≤◌, ℕ, List, Option, length, take, vec_len, IfOk, OnOk, IfSome, IsErrOf};
ghost use Rattle.std.specs.Io.KnownBytes.{Consumes, IsAtEnd};
ghost use Rattle.em_text.specs.Reader.{most_script};

use std::alloc::{AllocError, Global};
use std::io::{self, Read};

/// The longest script, in octets.
pub const MOST_SCRIPT: usize = 4_194_304;

/// As many reads, each of an octet or more, give more than the longest script.
const MOST_READS: usize = MOST_SCRIPT + 1;

/// For how many octets room is made at once: each read may be a call of the system.
const PIECE_OCTETS: usize = 65_536;

/// Why a script could not be read.
#[derive(Clone, Copy, Debug, PartialEq, Eq)]
pub enum ReadFault {
    /// The reader failed.
    Read,
    /// The script is longer than [`MOST_SCRIPT`].
    TooLarge,
    /// Memory was refused.
    Memory,
}

/// Reads all that the reader gives, by at most [`MOST_SCRIPT`] + 1 calls of `read`.
///
/// Where it fails, how far the reader was read is left open.
pub fn read_script<R: Read>(alloc: Global, reader: &mut R) -> Result<Vec<u8>, ReadFault>
    ensures all { IfOk result (λ script.
        Consumes (R.remaining reader.old) (R.remaining reader.new) script.items) }
    ensures end { OnOk result (IsAtEnd (R.remaining reader.new)) }
    ensures short { IfOk result (λ script. vec_len script ≤ most_script) }
    ensures too_large { IsErrOf result ReadFault.TooLarge →
        IfSome (R.remaining reader.old) (λ octets. most_script < length octets) }
{
    let mut script = Vec::new(alloc);
    let mut filled = 0;
    for reads in 0..MOST_READS {
        if make_room(&mut script, filled).is_err() {
            return Err(ReadFault::Memory);
        }
        let Ok(count) = read_behind(reader, &mut script, filled) else {
            return Err(ReadFault::Read);
        };
        if count == 0 {
            script.truncate(filled);
            return Ok(script);
        }
        if count > MOST_SCRIPT - filled {
            return Err(ReadFault::TooLarge);
        }
        filled += count;
    }
    unreachable!()
}

/// Sees that there is room behind the first `filled` octets, which stay.
fn make_room(script: &mut Vec<u8>, filled: usize) -> Result<(), AllocError>
    requires within { filled ≤ vec_len script.old }
    requires short { filled ≤ most_script }
    ensures room { OnOk result (filled < vec_len script.new) }
    ensures filled { OnOk result (take filled script.new.items ≡ take filled script.old.items) }
{
    if filled == script.len() {
        script.resize(filled + PIECE_OCTETS, 0)?;
    }
    Ok(())
}

/// Reads octets behind the first `filled`, as many as the reader gives in one call, and gives how many they are.
fn read_behind<R: Read>(reader: &mut R, script: &mut Vec<u8>, filled: usize) -> io::Result<usize>
    requires { filled < vec_len script.old }
    ensures within { IfOk result (λ count. filled + count ≤ vec_len script.new) }
    ensures read { IfOk result (λ count. (from : Option (List ℕ))
        → Consumes from (R.remaining reader.old) (take filled script.old.items)
        → Consumes from (R.remaining reader.new) (take (filled + count) script.new.items)) }
    ensures end { IfOk result (λ count. count ≡ 0 → IsAtEnd (R.remaining reader.new)) }
{
    let (_, room) = script.as_mut_slice().split_at_mut(filled);
    reader.read(room)
}
