//! Which typed lines were wrong.

use em_input::write_wrong_of;
use em_line::parts_of;
use em_prompt::{Typed, Wrong, prompted};
use em_regs::Profile;
use em_text::{WriteFailed, write_whole};
use itoa::Buffer;
use std::alloc::Global;

/// A line that is typed has fewer octets.
const MOST_TYPED: usize = 0xFFFF_FFFF;

/// Which lines of a file were wrong, as a text with a line for each.
#[derive(Drop)]
pub struct Marks {
    alloc: Global,
    /// Of which registers are named.
    profile: Profile,
    /// What each line of the text begins with: the names of the program and of the file.
    head: Vec<u8>,
    text: Vec<u8>,
    /// How many lines there were.
    lines: u64,
    /// How many of them were wrong.
    wrong: u64,
}

impl Marks {
    /// Of a file of this name, before its first line.
    pub fn new(alloc: Global, profile: Profile, head: Vec<u8>) -> Marks {
        Marks {
            alloc,
            profile,
            head,
            text: Vec::new(alloc),
            lines: 0,
            wrong: 0,
        }
    }

    /// What is to be told of the wrong lines so far, and how many they are.
    pub fn told(&self) -> (&[u8], u64) {
        (self.text.as_slice(), self.wrong)
    }

    /// Notes the next line.
    pub fn note(&mut self, line: &[u8]) {
        self.lines = self.lines.saturating_add(1);
        if let Some(wrong) = wrong_in(self.profile, line) {
            self.wrong = self.wrong.saturating_add(1);
            // where no memory is left for its text, it is counted alone
            let _ = self.write(wrong);
        }
    }

    fn write(&mut self, wrong: Wrong<'_>) -> Result<(), WriteFailed> {
        let mut digits = Buffer::new();
        let text = &mut self.text;
        write_whole(text, self.head.as_slice())?;
        write_whole(text, b": line ")?;
        write_whole(text, digits.format(self.lines).as_bytes())?;
        write_whole(text, b": ")?;
        write_wrong_of(self.alloc, self.profile, text, wrong)?;
        write_whole(text, b"\n")
    }
}

/// What is wrong with a typed line, if anything is.
fn wrong_in(profile: Profile, line: &[u8]) -> Option<Wrong<'_>> {
    if line.len() >= MOST_TYPED {
        return None;
    }
    let parts = parts_of(line);
    if parts.expected.is_some() && parts.said.len() < MOST_TYPED {
        if let Ok(Typed::Line(_)) = prompted(profile, parts.said) {
            return None;
        }
    }
    match prompted(profile, line) {
        Ok(_) => None,
        Err(wrong) => Some(wrong),
    }
}
