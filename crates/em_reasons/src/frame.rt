//! What the tests read of a frame: octets past its end are 0.
ghost use Rattle.std.specs.Prelude.{◌≡◌, ◌<◌, ◌%◌, slice_index};
ghost use Rattle.em_filter.specs.Vlan.{cfi_of, tag_of};

/// How many identifiers of VLANs there are.
const IDENTIFIERS: u16 = 4096;

/// The bit of a tag that is its CFI.
const CFI_BIT: u16 = 0x1000;

/// An octet of a frame, 0 past its end.
pub(crate) fn octet(frame: &[u8], at: usize) -> u8
    ensures { result ≡ slice_index frame.now at }
{
    frame.get(at).copied().unwrap_or(0)
}

/// The identifier of a frame's VLAN: the low 12 bits of its tag.
pub(crate) fn identifier_of(frame: &[u8]) -> u16
    ensures value { result ≡ tag_of frame.now % 4096 }
    ensures few { result < IDENTIFIERS }
{
    tag_of(frame) % IDENTIFIERS
}

/// The CFI of a frame's tag.
pub(crate) fn cfi_of(frame: &[u8]) -> bool
    ensures { result ≡ cfi_of frame.now }
{
    tag_of(frame) / CFI_BIT % 2 == 1
}

/// A frame's tag.
fn tag_of(frame: &[u8]) -> u16
    ensures { result ≡ tag_of frame.now }
{
    u16::from_be_bytes([octet(frame, 14), octet(frame, 15)])
}
