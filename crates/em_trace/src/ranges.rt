//! Which lines of a log are translated.

/// Lines of a log, from 1 on.
#[derive(Clone, Copy)]
pub struct Lines {
    /// The first that is translated.
    pub from: u64,
    /// The last.
    pub to: u64,
}

impl Lines {
    /// All of them.
    pub const ALL: Lines = Lines {
        from: 1,
        to: u64::MAX,
    };

    /// Those from one line to another, if there is one.
    pub fn between(from: u64, to: u64) -> Option<Lines> {
        if from == 0 || to < from {
            None
        } else {
            Some(Lines { from, to })
        }
    }

    /// Whether this line is one of them.
    pub fn has(self, line: u64) -> bool {
        self.from <= line && line <= self.to
    }
}
