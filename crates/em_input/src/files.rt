//! A script from the host's files, or from standard input.

use crate::script::{InputFault, MOST_INPUT, is_compressed, read_input};
use std::fs::{self, File};
use std::io::{self, ErrorKind};
use std::os::unix::fs::MetadataExt;
use std::rt::Files;

/// The name of standard input as a script.
const STANDARD_INPUT: &str = "-";

/// Where the host has standard input among its files.
const DEVICE: &str = "/dev/stdin";

/// Why there is no script.
#[derive(Clone, Copy)]
pub enum InputRefused {
    /// There is no such file.
    Missing,
    /// The file, or standard input, can't be read.
    Unread,
    /// It is longer than a script may be: so many octets, where that is known.
    TooLarge(Option<u64>),
    /// It is a file of gzip.
    Compressed,
    /// Memory was refused.
    Memory,
}

/// The script of this name, whole: that of standard input, where it is `-`.
pub fn input_of<R: Files + Input + AllocGlobal>(
    rt: &R,
    name: &str,
) -> Result<Vec<u8>, InputRefused> {
    if let Some(size) = size_of(rt, name) {
        return Err(InputRefused::TooLarge(Some(size)));
    }
    let read = if name == STANDARD_INPUT {
        read_input(rt.alloc(), &mut rt.reader())
    } else {
        match File::open(rt, name) {
            Ok(mut file) => read_input(rt.alloc(), &mut file),
            Err(error) => return Err(refused_of(&error)),
        }
    };
    match read {
        Ok(text) if is_compressed(text.as_slice()) => Err(InputRefused::Compressed),
        Ok(text) => Ok(text),
        Err(InputFault::TooLarge) => Err(InputRefused::TooLarge(None)),
        Err(InputFault::Memory) => Err(InputRefused::Memory),
        Err(InputFault::Read) => Err(InputRefused::Unread),
    }
}

fn refused_of(error: &io::Error) -> InputRefused {
    match error.kind() {
        ErrorKind::NotFound => InputRefused::Missing,
        ErrorKind::OutOfMemory => InputRefused::Memory,
        _ => InputRefused::Unread,
    }
}

/// How many octets a file has, where it is too large for a script.
fn size_of<R: Files>(rt: &R, name: &str) -> Option<u64> {
    match fs::metadata(rt, path_of(name)) {
        Ok(found) if found.len() > MOST_INPUT as u64 => Some(found.len()),
        _ => None,
    }
}

fn path_of(name: &str) -> &str {
    if name == STANDARD_INPUT {
        return DEVICE;
    }
    name
}

/// Whether two names are those of one file, by whatever paths; `-` is standard input. A terminal or a pipe is no file here.
pub fn is_one_file<R: Files>(rt: &R, name: &str, other: &str) -> bool {
    match (
        fs::metadata(rt, path_of(name)),
        fs::metadata(rt, path_of(other)),
    ) {
        (Ok(one), Ok(two)) => {
            one.is_file() && two.is_file() && one.dev() == two.dev() && one.ino() == two.ino()
        }
        _ => false,
    }
}
