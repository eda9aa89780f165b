//! A change of a watched thing.

use crate::watch::Sight;

/// A change of a watched thing: which event made it, and what was seen before.
#[derive(Clone, Copy, PartialEq, Eq, Debug)]
pub struct Change {
    /// How many steps back lead before that event: the newest event is 1.
    pub back: usize,
    /// What is seen so many steps back, just before that event.
    pub before: Sight,
}
