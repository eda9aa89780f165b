//! A frame of the FIFO, to look at.
ghost use Rattle.std.specs.Prelude.{◌≡◌, ◌+◌, ◌++◌, ◌<◌, ◌≤◌, length, slice_index};
ghost use Rattle.em_address.specs.Kind.{destination, source};

/// A frame as it lies in the packet buffer, where the buffer's end may lie within it.
#[derive(Clone, Copy, Debug)]
pub struct StoredFrame<'a> {
    /// Its octets up to the buffer's end.
    pub front: &'a [u8],
    /// Those that lie at the buffer's beginning: none where it does not reach past the end.
    pub back: &'a [u8],
    /// The VLAN tag that was taken out of it, if one was.
    pub tag: Option<u16>,
}

impl StoredFrame<'_> {
    /// One of its octets.
    fn octet(&self, index: usize) -> u8
        requires { index < length self.now.front.now + length self.now.back.now }
        ensures { result ≡ slice_index (self.now.front.now ++ self.now.back.now) index }
    {
        let split = self.front.len();
        if index < split {
            self.front[index]
        } else {
            self.back[index - split]
        }
    }

    /// Its destination and its source, octets 0 to 5 and 6 to 11.
    #[tactic(auto, unfolding(em_address::specs::Kind::destination, em_address::specs::Kind::source))]
    pub fn addresses(&self) -> ([u8; 6], [u8; 6])
        requires { 12 ≤ length self.now.front.now + length self.now.back.now }
        ensures destination { destination result.0 ≡ destination (self.now.front.now ++ self.now.back.now) }
        ensures source { destination result.1 ≡ source (self.now.front.now ++ self.now.back.now) }
    {
        (
            [
                self.octet(0),
                self.octet(1),
                self.octet(2),
                self.octet(3),
                self.octet(4),
                self.octet(5),
            ],
            [
                self.octet(6),
                self.octet(7),
                self.octet(8),
                self.octet(9),
                self.octet(10),
                self.octet(11),
            ],
        )
    }
}
