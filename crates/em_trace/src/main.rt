//! Turns a log of register accesses, of QEMU, of Linux's mmiotrace or of a driver, into a script on standard output.
//!
//!     em_trace [OPTIONS] LOG
//!
//! Each access of four octets becomes a line: a write as it is, and a read with the value that the log's adapter gave,
//! as the answer that the line expects. What the model has no register for, and what is no access of the adapter, stays as
//! a comment, and is counted on standard error.
#![tactic(auto)]

mod arriving;
mod clock;
mod counts;
mod done;
mod faults;
mod frames;
mod head;
mod lines;
mod missing;
mod poll;
mod ranges;
mod rings;
mod shown;
mod survey;
mod text;
mod translating;
mod words;

use crate::arriving::{Arrivals, Seen, arrivals_in};
use crate::done::Done;
use crate::faults::{is_gzip, open_fault, packed, read_fault};
use crate::frames::{Frames, packets_of};
use crate::head::Head;
use crate::shown::Address;
use crate::survey::Survey;
use crate::text::write_text;
use crate::translating::{Wanted, translate};
use crate::words::{WordsRefused, parse, wanted};
use anyhow::{Context, Result, bail};
use clap::error::ErrorKind;
use clap::{ArgMatches, Error};
use std::env;
use std::fs::File;
use std::io::{self, BufRead, BufReader, BufWriter, Read, Write};
use std::process::ExitCode;
use std::rt::{Env, Files};

/// The status where every line was read.
const WELL: u8 = 0;

/// The status where a line could not be read, or none was an access.
const UNREAD: u8 = 1;

/// The status where the command line is refused.
const REFUSED: u8 = 2;

/// The status of a run that failed.
const FAILED: u8 = 3;

/// What the files are that are read.
const LOG: &str = "log";

const CAPTURE: &str = "capture";

/// The address that the script's machine has, where the log does not say it.
const USUAL_ADDRESS: Address = [0x52, 0x54, 0x00, 0x12, 0x34, 0x56];

/// How many octets are read or written at once: each may be a call of the system.
const BUFFER: usize = 65_536;

fn main(rt: HostRuntime) -> ExitCode {
    ExitCode::from(status(&rt))
}

/// Does what the words of the command line ask for, and gives the status.
fn status<R: Env + Files + Input + Print + Eprint + AllocGlobal>(rt: &R) -> u8 {
    match run(rt) {
        Ok(status) => status,
        Err(error) => {
            let _ = eprintln!(rt; "em_trace: {error:#}");
            FAILED
        }
    }
}

fn run<R: Env + Files + Input + Print + Eprint + AllocGlobal>(rt: &R) -> Result<u8> {
    let words: Vec<String> = env::args(rt)?.collect(rt.alloc())?;
    match parse(rt.alloc(), words.as_slice()) {
        Ok(matches) => with_matches(rt, &matches),
        Err(error) => told(rt, &error),
    }
}

/// Prints what the parser says, and gives the status.
fn told<R: Print + Eprint>(rt: &R, error: &Error) -> Result<u8> {
    if let ErrorKind::OutOfMemory = error.kind() {
        bail!("memory was refused");
    }
    error.print(rt)?;
    Ok(if error.exit_code() == 0 {
        WELL
    } else {
        REFUSED
    })
}

/// Opens the log, and turns it into a script.
fn with_matches<R: Files + Input + Print + Eprint + AllocGlobal>(
    rt: &R,
    matches: &ArgMatches<'_>,
) -> Result<u8> {
    let wanted = match wanted(rt.alloc(), matches) {
        Ok(wanted) => wanted,
        Err(refused) => return refused_by(rt, refused),
    };
    let log = matches.get_str("log").unwrap_or("-");
    if log == "-" {
        let reader = BufReader::with_capacity(rt.alloc(), BUFFER, rt.reader())?;
        with_reader(rt, &wanted, matches, reader)
    } else {
        let file = match File::open(rt, log) {
            Ok(file) => file,
            Err(error) => return Err(open_fault(log, LOG, &error)),
        };
        let reader = BufReader::with_capacity(rt.alloc(), BUFFER, file)?;
        with_reader(rt, &wanted, matches, reader)
    }
}

/// Says what is wanted of a word that was refused.
fn refused_by<R: Eprint>(rt: &R, refused: WordsRefused) -> Result<u8> {
    let _ = eprintln!(rt; "em_trace: {refused}");
    Ok(REFUSED)
}

/// Turns the log into a script, with the frames of the capture if there is one.
fn with_reader<R: Files + Print + Eprint + AllocGlobal, B: BufRead + Drop>(
    rt: &R,
    wanted: &Wanted<'_>,
    matches: &ArgMatches<'_>,
    reader: B,
) -> Result<u8> {
    let log = matches.get_str("log").unwrap_or("-");
    let mut lines = reader;
    match lines.fill_buf() {
        Ok(octets) if is_gzip(octets) => return Err(packed(log)),
        Ok(_) => {}
        Err(error) => return Err(read_fault(log, LOG, &error)),
    }
    match matches.get_str("frames") {
        Some(name) => with_capture(rt, wanted, name, &mut lines),
        None => {
            let frames = Frames::none(rt.alloc());
            written(rt, wanted, frames, None, &mut lines)
        }
    }
}

/// The octets of the capture.
fn capture_of<R: Files + AllocGlobal>(rt: &R, name: &str) -> Result<Vec<u8>> {
    let mut octets = Vec::new(rt.alloc());
    let mut file = match File::open(rt, name) {
        Ok(file) => file,
        Err(error) => return Err(open_fault(name, CAPTURE, &error)),
    };
    if let Err(error) = file.read_to_end(&mut octets) {
        return Err(read_fault(name, CAPTURE, &error));
    }
    if is_gzip(octets.as_slice()) {
        return Err(packed(name));
    }
    Ok(octets)
}

/// Reads the capture and the whole log, finds where the frames arrive, and turns the log into a script.
fn with_capture<R: Files + Print + Eprint + AllocGlobal, B: BufRead>(
    rt: &R,
    wanted: &Wanted<'_>,
    name: &str,
    reader: &mut B,
) -> Result<u8> {
    let octets = capture_of(rt, name)?;
    let mut log = Vec::new(rt.alloc());
    reader
        .read_to_end(&mut log)
        .context("the log cannot be read")?;
    let survey = Survey::new(rt.alloc(), wanted.log(), log.as_slice())?;
    let address = wanted.address.or(survey.address());
    let own = address.unwrap_or(USUAL_ADDRESS);
    let packets = packets_of(rt.alloc(), name, octets.as_slice(), own)?;
    let Arrivals { arrivals, seen } = arrivals_in(
        rt.alloc(),
        &survey,
        address,
        wanted.at,
        packets.as_slice(),
    )?;
    let mut lines = log.as_slice();
    written(rt, wanted, Frames::new(arrivals), Some(seen), &mut lines)
}

/// Writes the script, says what it does not do, and gives the status.
fn written<R: Print + Eprint + AllocGlobal, B: BufRead>(
    rt: &R,
    wanted: &Wanted<'_>,
    frames: Frames<'_>,
    seen: Option<Seen>,
    lines: &mut B,
) -> Result<u8> {
    // (the head says what memory the whole log wants)
    let mut script = Vec::new(rt.alloc());
    let mut done = translate(rt, wanted, frames, lines, &mut script)?;
    done.seen = seen;
    let mut head = Vec::new(rt.alloc());
    Head {
        room: wanted.memory.or(done.room),
        profile: wanted.profile,
    }
    .write(&mut head)?;
    done.octets = done.octets.saturating_add(head.len() as u64);
    let mut out = BufWriter::with_capacity(rt.alloc(), BUFFER, io::writer(rt))?;
    write_text(&mut out, head.as_slice())?;
    write_text(&mut out, script.as_slice())?;
    out.flush().context("the script cannot be written")?;
    told_of(rt, &done)?;
    Ok(if done.is_well() { WELL } else { UNREAD })
}

/// Says on standard error what the script does not do.
fn told_of<R: Eprint + AllocGlobal>(rt: &R, done: &Done) -> Result<()> {
    let mut text = Vec::new(rt.alloc());
    done.write(&mut text)?;
    if let Ok(text) = str::from_utf8(text.as_slice()) {
        let _ = eprint!(rt; "{text}");
    }
    Ok(())
}
