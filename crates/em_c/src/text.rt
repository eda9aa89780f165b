//! Room that C lends for a text.
ghost use Rattle.std.specs.Prelude.{◌≡◌, ◌+◌, ◌≤◌, ◌++◌, [], Some, length, min, take, drop};
ghost use Rattle.em_c.specs.Text.{said};

use std::io::{Result, Write};

/// How many octets a text has at most. The longest is that of a frame of 20,000 octets, two digits for each, behind which
/// stands a file's name of 4,096; and a run's longest step back has nine lines with such a name.
const ROOM: usize = 49_152;

/// A text, with room for more of it.
#[repr(C)]
pub struct Text {
    /// How many octets it has.
    pub used: usize,
    /// They lie at the front.
    pub octets: [u8; ROOM],
}

impl Text {
    /// Puts octets behind what it says, where there is room for them.
    #[inline(always)]
    fn put(&mut self, octets: &[u8])
        requires { min self.old.used 49_152 + length octets.now ≤ 49_152 }
        ensures { said self.new ≡ said self.old ++ octets.now }
    {
        let at = self.used.min(ROOM);
        put(&mut self.octets, at, octets);
        self.used = at + octets.len();
    }

    /// Begins anew.
    pub fn clear(&mut self)
        ensures { said self.new ≡ [] }
    {
        self.used = 0;
    }
}

/// It takes as many octets as there is room for.
impl Write for Text {
    ghost contents = { λ text. Some (said text) };

    #[inline(always)]
    fn write(&mut self, octets: &[u8]) -> Result<usize> {
        let room = ROOM - self.used.min(ROOM);
        if octets.len() <= room {
            // a word of the code is put there by a store or two
            self.put(octets);
            return Ok(octets.len());
        }
        self.put(&octets[..room]);
        Ok(room)
    }

    fn flush(&mut self) -> Result<()> {
        Ok(())
    }
}

/// Puts octets at a place of a room.
#[inline(always)]
fn put(room: &mut [u8], at: usize, octets: &[u8])
    requires { at + length octets.now ≤ length room.old }
    ensures { room.new ≡ take at room.old ++ (octets.now ++ drop (at + length octets.now) room.old) }
{
    room[at..at + octets.len()].copy_from_slice(octets);
}
