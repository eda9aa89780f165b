//! How many events a `back` takes back.
ghost use Rattle.std.specs.Prelude.{◌≤◌};
ghost use Rattle.em_line.specs.declared.back_count.TheConstants.{MOST_BACK};

/// The most events that one `back` takes back.
pub const MOST_BACK: u32 = 65_536;

/// How many events a `back` takes back: at most [`MOST_BACK`].
#[derive(Clone, Copy)]
pub struct BackCount {
    pub events: u32,
    ghost most: { events ≤ MOST_BACK },
}
