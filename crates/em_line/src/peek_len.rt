//! How many octets a `peek` shows.
ghost use Rattle.std.specs.Prelude.{◌≤◌};
ghost use Rattle.em_line.specs.declared.peek_len.TheConstants.{MOST_PEEK};

/// The most octets that one `peek` shows.
pub const MOST_PEEK: usize = 16_384;

/// How many octets a `peek` shows: at most [`MOST_PEEK`].
#[derive(Clone, Copy)]
pub struct PeekLen {
    pub octets: usize,
    ghost most: { octets ≤ MOST_PEEK },
}
