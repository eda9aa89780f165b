//! The memory of a packet.
ghost use Rattle.std.specs.Prelude.{◌≡◌, IfOk, vec_len};

use std::alloc::{AllocError, Global};

/// A packet of `len` octets that are still to be written.
pub(crate) fn packet_of(alloc: Global, len: u16) -> Result<Vec<u8>, AllocError>
    ensures len { IfOk result (λ packet. vec_len packet ≡ len) }
{
    vec![in alloc; 0; usize::from(len)]
}
