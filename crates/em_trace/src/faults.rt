//! Why a file is not read, in words.

use anyhow::{Error, anyhow};
use std::io::{self, ErrorKind};

/// Why a file is not opened that was to be read as this.
pub fn open_fault(name: &str, what: &str, error: &io::Error) -> Error {
    match error.kind() {
        ErrorKind::NotFound => anyhow!("{name}: there is no such file"),
        _ => read_fault(name, what, error),
    }
}

/// Why a file is not read as this.
pub fn read_fault(name: &str, what: &str, error: &io::Error) -> Error {
    match error.kind() {
        ErrorKind::OutOfMemory => anyhow!("{name}: no memory"),
        _ => anyhow!("{name}: the {what} cannot be read"),
    }
}

/// What is said of a file that gzip wrote.
pub fn packed(name: &str) -> Error {
    anyhow!("{name}: it is compressed by gzip: unpack it first")
}

/// Whether a file that begins so is compressed by gzip.
pub fn is_gzip(octets: &[u8]) -> bool {
    matches!(octets, [0x1F, 0x8B, ..])
}
