//! A log that is read once before it is translated: its places, and what the adapter is told to send.

use crate::clock::{Moment, moment_of};
use crate::lines::read_line;
use crate::shown::{Address, Shown, value_of};
use anyhow::{Context, Result};
use em_log::{Entry, Log, RegisterAccess, Way};
use em_regs::Reg;
use std::alloc::{AllocError, Global};

/// ICR's bit RXT0: a frame has arrived.
const RXT0: u32 = 0x0000_0080;

/// What an access says of frames that arrived before it.
#[derive(Clone, Copy)]
pub enum Tells {
    /// A read of ICR with RXT0: a frame arrived since the read of ICR before.
    Arrived,
    /// A read of ICR without it: none did that the adapter took.
    Quiet,
    /// Nothing.
    Nothing,
}

/// A place of a log: right before an access.
#[derive(Clone, Copy)]
pub struct Place {
    /// The access's line.
    pub line: u64,
    pub moment: Option<Moment>,
    /// Whether the receiver is enabled here.
    pub receives: bool,
    pub tells: Tells,
    /// From here on, the first place whose access tells that frames arrived; as many as there are places for none.
    pub arrived: usize,
    /// From here on, the first place whose access tells that none did; the same.
    pub quiet: usize,
    /// From here on, the first place where the receiver is enabled; the same.
    pub open: usize,
}

/// A write of TDT that lets the adapter send.
#[derive(Clone, Copy)]
pub struct Sending {
    pub moment: Option<Moment>,
    /// How many descriptors it gives the adapter.
    pub descriptors: u32,
}

/// What was seen of a log.
#[derive(Drop)]
pub struct Survey {
    pub places: Vec<Place>,
    pub sendings: Vec<Sending>,
    /// What the whole log shows of the adapter.
    pub shown: Shown,
    /// How many lines it has.
    pub lines: u64,
}

impl Survey {
    /// What is seen of this log.
    pub fn new(alloc: Global, log: Log<'_>, octets: &[u8]) -> Result<Survey> {
        let mut survey = Survey {
            places: Vec::new(alloc),
            sendings: Vec::new(alloc),
            shown: Shown::NOTHING,
            lines: 0,
        };
        let mut log = log;
        let mut reader = octets;
        let mut line = Vec::new(alloc);
        for number in 1..u64::MAX {
            if !read_line(&mut reader, &mut line).context("the log cannot be read")? {
                break;
            }
            survey.lines = number;
            if let Entry::Access(access) = log.read(line.as_slice()) {
                let moment = moment_of(log.form(), line.as_slice());
                survey.add(number, moment, access)?;
            }
        }
        survey.look_on();
        Ok(survey)
    }

    /// The address that the log shows.
    pub fn address(&self) -> Option<Address> {
        self.shown.address
    }

    /// Adds an access.
    fn add(
        &mut self,
        line: u64,
        moment: Option<Moment>,
        access: RegisterAccess,
    ) -> Result<(), AllocError> {
        self.places.push(Place {
            line,
            moment,
            receives: self.shown.receives,
            tells: told_by(access),
            arrived: 0,
            quiet: 0,
            open: 0,
        })?;
        let descriptors = self.shown.pass(access);
        if descriptors > 0 {
            self.sendings.push(Sending {
                moment,
                descriptors,
            })?;
        }
        Ok(())
    }

    /// Says at each place what comes from there on.
    fn look_on(&mut self) {
        let count = self.places.len();
        let (mut arrived, mut quiet, mut open) = (count, count, count);
        for back in 1..=count {
            let index = count - back;
            if let Some(place) = self.places.get_mut(index) {
                match place.tells {
                    Tells::Arrived => arrived = index,
                    Tells::Quiet => quiet = index,
                    Tells::Nothing => {}
                }
                if place.receives {
                    open = index;
                }
                place.arrived = arrived;
                place.quiet = quiet;
                place.open = open;
            }
        }
    }
}

/// What an access tells of frames.
fn told_by(access: RegisterAccess) -> Tells {
    if access.way != Way::Read || access.offset != Reg::Icr.offset() {
        return Tells::Nothing;
    }
    match value_of(access) {
        Some(value) if value & RXT0 != 0 => Tells::Arrived,
        Some(_) => Tells::Quiet,
        None => Tells::Nothing,
    }
}
