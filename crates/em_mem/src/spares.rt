//! Boxes of records that were let go, for later records.
use std::alloc::{AllocError, Global};

/// How many boxes are kept at most.
const MOST_SPARES: usize = 64;

/// Boxes that were let go, up to 64: a later record takes one of them in place of new memory. What they
/// hold is of no matter, so that clauses say nothing of it.
#[derive(Drop)]
pub struct Spares<T: Drop> {
    boxes: Vec<Box<T>>,
}

impl<T: Drop> Spares<T> {
    /// None yet; the memory of their places is taken here.
    pub fn new(alloc: Global) -> Result<Spares<T>, AllocError> {
        let boxes = Vec::with_capacity(alloc, MOST_SPARES)?;
        Ok(Spares { boxes })
    }

    /// One of them, if there is one.
    #[inline(always)]
    pub fn take(&mut self) -> Option<Box<T>> {
        self.boxes.pop()
    }

    /// Keeps a box where there is a place for it, and lets its memory go otherwise.
    #[inline(always)]
    pub fn put(&mut self, spare: Box<T>) {
        if self.boxes.len() < self.boxes.capacity() {
            self.boxes.push_reserved(spare);
        }
    }
}
