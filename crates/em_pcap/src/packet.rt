//! A packet of a capture.
ghost use Rattle.std.specs.Prelude.{◌≡◌, length, IfOk};
ghost use Rattle.em_pcap.specs.Frame.{frame_of, cut_of, header_octets};

use std::alloc::{AllocError, Global};

/// A packet of a capture.
#[derive(Clone, Copy, Debug)]
pub struct Packet<'a> {
    /// The Ethernet header of the frame, where the capture has Linux's in its place: these octets stand before the others.
    pub header: Option<[u8; 14]>,
    /// The octets of the frame that were captured, as they lie in the file.
    pub octets: &'a [u8],
    /// How many octets the frame had.
    pub original: u32,
    /// When it was captured, in nanoseconds since 1970 began; none where the file does not say it.
    pub time: Option<u64>,
}

/// How much was captured of a frame that was cut.
#[derive(Clone, Copy, Debug, PartialEq, Eq)]
pub struct Cut {
    /// How many octets were captured.
    pub captured: usize,
    /// How many octets the frame had: more than were captured.
    pub original: u32,
}

impl Packet<'_> {
    /// How many octets of the frame are there.
    pub fn captured(&self) -> usize
        ensures { result ≡ length (frame_of self.now).octets }
    {
        match self.header {
            Some(header) => header.as_slice().len() + self.octets.len(),
            None => self.octets.len(),
        }
    }

    /// The octets of the frame that are there, in memory of their own.
    pub fn to_vec(&self, alloc: Global) -> Result<Vec<u8>, AllocError>
        ensures { IfOk result (λ octets. octets.items ≡ (frame_of self.now).octets) }
    {
        let mut octets = Vec::new(alloc);
        if let Some(header) = self.header {
            octets.extend_from_slice(header.as_slice())?;
        }
        octets.extend_from_slice(self.octets)?;
        Ok(octets)
    }

    /// How much was captured, where that is less than the frame had; none of a frame that is whole.
    pub fn cut(&self) -> Option<Cut>
        ensures { result ≡ cut_of (frame_of self.now) }
    {
        let captured = self.captured();
        let original = self.original;
        if captured < original as usize {
            Some(Cut { captured, original })
        } else {
            None
        }
    }
}
