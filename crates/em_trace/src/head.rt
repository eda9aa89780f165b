//! How a script begins: what its machine is made of.

use crate::rings::Room;
use anyhow::Result;
use em_regs::Profile;
use std::io::Write;

/// What a script says that its machine is made of.
#[derive(Clone, Copy)]
pub struct Head {
    /// The guest's memory, where it is not the usual one.
    pub room: Option<Room>,
    pub profile: Profile,
}

impl Head {
    /// Writes the comment that says so, by the words of a command line; nothing where all is as usual.
    pub fn write<W: Write>(self, out: &mut W) -> Result<()> {
        let Head { room, profile } = self;
        if room.is_none() && profile == Profile::Table {
            return Ok(());
        }
        write!(out, "# em_debug")?;
        if let Some(room) = room {
            room.write(out)?;
        }
        if profile == Profile::Adapter {
            write!(out, " --profile adapter")?;
        }
        writeln!(out, "")?;
        Ok(())
    }
}
