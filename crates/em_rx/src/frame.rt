//! A frame as the FIFO keeps it.
ghost use Rattle.std.specs.Prelude.{◌≡◌, ◌≤◌, IfOk, Some, length, true};
ghost use Rattle.em_rx.specs.Frame.{stored_frame};

use std::alloc::{AllocError, Global};

/// Where the type and the tag lie in a frame, behind the two addresses.
const TYPE_AT: usize = 12;

/// Where the tag lies, behind its type.
const TAG_AT: usize = 14;

/// Where the frame goes on behind them.
const TAG_END: usize = 16;

/// The octets of a tagged frame as they are stored.
pub(crate) fn stored_octets(alloc: Global, frame: &[u8]) -> Result<Vec<u8>, AllocError>
    requires { 60 ≤ length frame.now }
    ensures { IfOk result (λ octets. octets.items ≡ (stored_frame frame.now true).octets) }
{
    let mut octets = Vec::with_capacity(alloc, frame.len() - (TAG_END - TYPE_AT))?;
    octets.extend_from_slice(&frame[..TYPE_AT])?;
    octets.extend_from_slice(&frame[TAG_END..])?;
    Ok(octets)
}

/// The tag of a tagged frame: its higher octet comes first.
pub(crate) fn tag_of(frame: &[u8]) -> u16
    requires { 60 ≤ length frame.now }
    ensures { (stored_frame frame.now true).tag ≡ Some result }
{
    256 * frame[TAG_AT] as u16 + frame[TAG_AT + 1] as u16
}
