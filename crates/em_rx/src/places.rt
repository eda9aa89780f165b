//! Where the frames of the FIFO lie.

/// How many octets a stored frame has, and its tag where one was taken out of it.
#[derive(Clone, Copy)]
pub struct Entry {
    pub len: u16,
    pub tag: Option<u16>,
}

/// Where the frames lie in the packet buffer, and their entries in the ring of entries.
#[derive(Clone, Copy)]
pub struct Places {
    /// Where the first frame begins in the buffer.
    pub head: u32,
    /// Where its entry lies in the ring.
    pub first: u32,
    /// How many frames there are.
    pub count: u32,
    /// How many octets of the first frame are in guest memory already.
    pub taken: u32,
    /// How many octets the frames have together.
    pub used: u32,
}

impl Places {
    /// No frame, and the next one at the beginning.
    pub fn none() -> Places {
        Places {
            head: 0,
            first: 0,
            count: 0,
            taken: 0,
            used: 0,
        }
    }
}
