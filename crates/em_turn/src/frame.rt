//! A frame of the wire.
ghost use Rattle.std.specs.Prelude.{◌≡◌};

use std::marker::Model;

/// A frame of the wire: from its destination to the last octet before the frame check sequence.
/// Contracts see the list of its octets.
#[derive(Drop)]
pub struct Frame {
    octets: Vec<u8>,
}

impl Model for Frame {
    ghost use Rattle.std.specs.Prelude.{ℕ, List};

    ghost Value = { List ℕ };

    ghost view = { λ frame. frame.octets.items };
}

impl Frame {
    /// A frame of these octets.
    pub fn new(octets: Vec<u8>) -> Frame
        ensures { result ≡ octets.items }
    {
        Frame { octets }
    }

    /// The octets of the frame.
    pub fn octets(&self) -> &[u8]
        ensures { result.now ≡ self.now }
    {
        self.octets.as_slice()
    }
}
