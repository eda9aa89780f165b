//! Reads that are repeated until something happens.

use crate::clock::Moment;
use em_log::{RegisterAccess, Way};
use em_regs::{Kind, Reg};

/// A read, and how many more like it followed.
#[derive(Clone, Copy)]
pub struct Poll {
    read: RegisterAccess,
    /// How many more reads gave the same.
    pub more: u64,
    /// The log's line of the last of them.
    pub last: u64,
    /// When that was logged.
    pub moment: Option<Moment>,
}

impl Poll {
    /// The poll that an access may begin: a read whose repetition with the same answer tells nothing new.
    ///
    /// A read of ICR or of a counter clears it. Where it gave anything but 0, a second one like it tells of something
    /// that happened between.
    pub fn begun_by(access: RegisterAccess) -> Option<Poll> {
        let value = access.value?;
        if access.way != Way::Read || (value != 0 && is_cleared_by_a_read(access.offset)) {
            return None;
        }
        Some(Poll {
            read: access,
            more: 0,
            last: 0,
            moment: None,
        })
    }

    /// Whether the access of this line is one more read of the poll; then it is counted.
    pub fn takes(&mut self, line: u64, moment: Option<Moment>, access: RegisterAccess) -> bool {
        if access != self.read {
            return false;
        }
        self.more = self.more.saturating_add(1);
        self.last = line;
        self.moment = moment;
        true
    }
}

/// Whether a read of the register at an offset may clear it.
fn is_cleared_by_a_read(offset: u32) -> bool {
    match Reg::of_offset(offset) {
        Some(reg) => reg == Reg::Icr || reg.row().kind == Kind::Counter,
        None => false,
    }
}
