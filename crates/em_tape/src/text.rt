//! The octets of a line.

use smallvec::SmallVec;

/// The octets of a line, or of another text beside one. Up to 16 of them, as an access to a register has, lie in the value
/// itself; a longer text has memory of its own.
pub type Text = SmallVec<u8, 16>;
