//! What is told of events, and lines whose records wait for those of older ones.

use em_recording::{Recorded, write_event};
use em_text::{WriteFailed, write_whole};
use em_trail::Note;
use em_watch::{Difference, Sight};
use std::alloc::AllocError;
use std::io::Write;

/// What is told of an event: what it was, what it changed, and the frame that it stored.
#[derive(Drop)]
pub struct Told {
    pub note: Note,
    pub recorded: Recorded,
    pub stored: Option<Vec<u8>>,
}

/// A line that was played, and whose record is not written yet.
#[derive(Drop)]
pub struct Held {
    /// Its record, behind which those of its events follow.
    pub text: Vec<u8>,
    /// The number of its first event, and how many it performed.
    pub number: u64,
    pub count: usize,
    /// Its events, the newest first, as far as they were told.
    told: Vec<Told>,
}

impl Held {
    /// A line of which no event was told yet.
    pub fn new(text: Vec<u8>, number: u64, count: usize, told: Vec<Told>) -> Held {
        Held {
            text,
            number,
            count,
            told,
        }
    }

    /// Whether each of its events was told.
    pub fn is_told(&self) -> bool {
        self.told.len() >= self.count
    }

    /// Adds the event before those that were told.
    pub fn tell(&mut self, one: Told) -> Result<(), AllocError> {
        self.told.push(one).map_err(AllocError::from)
    }

    /// Writes its record and those of its events.
    pub fn write<W: Write>(&self, writer: &mut W) -> Result<(), WriteFailed> {
        write_whole(writer, self.text.as_slice())?;
        for (done, one) in self.told.as_slice().iter().rev().enumerate() {
            write_one(writer, self.number, done, one)?;
        }
        Ok(())
    }
}

/// Whether there are more frames in the FIFO than there were.
pub fn has_stored(frames: Option<Difference>) -> bool {
    match frames {
        Some(
            Difference {
                before: Sight::Count(before),
                after: Sight::Count(after),
            },
        ) => before < after,
        _ => false,
    }
}

/// Writes the record of an event behind `done` others of its line, of which the first has a number.
pub fn write_one<W: Write>(
    writer: &mut W,
    first: u64,
    done: usize,
    one: &Told,
) -> Result<(), WriteFailed> {
    let number = first.saturating_add(done as u64);
    let stored = match &one.stored {
        Some(octets) => Some(octets.as_slice()),
        None => None,
    };
    write_event(writer, number, one.note, &one.recorded, stored)
}
