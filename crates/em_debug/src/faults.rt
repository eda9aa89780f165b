//! Why a run stops, in words.

use anyhow::{Error, Result, anyhow, bail};
use em_console::ConsoleFault;
use em_input::is_compressed;
use em_script::BenchFault;
use std::io::{self, BufRead, ErrorKind};

/// What is said where memory is refused.
pub const NO_MEMORY: &str = "no memory";

const UNWRITTEN: &str = "standard output cannot be written";

/// Why a script is not played, or not told of.
pub fn bench_text(fault: BenchFault) -> &'static str {
    match fault {
        BenchFault::Read => "the script cannot be read",
        BenchFault::Write => UNWRITTEN,
        BenchFault::TooLarge => "a line is too long, or there are too many",
        BenchFault::Memory => NO_MEMORY,
    }
}

/// Why a session over lines from there stops.
pub fn console_fault(fault: ConsoleFault, from: &str) -> Error {
    match fault {
        ConsoleFault::Read => anyhow!("{from}: it cannot be read"),
        ConsoleFault::Write => anyhow!("{UNWRITTEN}"),
        ConsoleFault::Memory => anyhow!("{NO_MEMORY}"),
    }
}

/// Why a file behind `-x` is not opened.
pub fn open_fault(path: &str, error: &io::Error) -> Error {
    match error.kind() {
        ErrorKind::NotFound => anyhow!("-x {path}: there is no such file"),
        ErrorKind::OutOfMemory => anyhow!("{NO_MEMORY}"),
        _ => anyhow!("-x {path}: it cannot be read"),
    }
}

/// Sees that a file behind `-x` can be read, and is none of gzip.
pub fn see_commands<B: BufRead>(path: &str, reader: &mut B) -> Result<()> {
    match reader.fill_buf() {
        Ok(octets) if is_compressed(octets) => bail!(
            "-x {path}: it is compressed by gzip: unpack it first"
        ),
        Ok(_) => Ok(()),
        Err(_) => bail!("-x {path}: it cannot be read"),
    }
}
