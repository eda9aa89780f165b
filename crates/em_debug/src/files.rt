//! The script, what is told of its bad lines, and which files may not be one.

use crate::marks::Marks;
use crate::words::Words;
use anyhow::{Result, bail};
use em_input::{InputRefused, MOST_INPUT, input_of, is_one_file, wrong_in};
use em_regs::Profile;
use em_text::next_line;
use std::rt::Files;

/// Where the host has standard output among its files.
const OUTPUT: &str = "/dev/stdout";

/// The script of this name, whole.
pub fn read_script<R: Files + Input + AllocGlobal>(rt: &R, name: &str) -> Result<Vec<u8>> {
    match input_of(rt, name) {
        Ok(text) => Ok(text),
        Err(InputRefused::Missing) => bail!("{name}: there is no such file"),
        Err(InputRefused::Unread) => bail!("{name}: the script cannot be read"),
        Err(InputRefused::Memory) => bail!("{name}: no memory"),
        Err(InputRefused::Compressed) => bail!(
            "{name}: it is compressed by gzip: `gzip -dc` makes a script of it"
        ),
        Err(InputRefused::TooLarge(Some(size))) => bail!(
            "{name}: it has {size} octets, and a script at most {MOST_INPUT}"
        ),
        Err(InputRefused::TooLarge(None)) => bail!("{name}: it has more than {MOST_INPUT} octets"),
    }
}

/// Says on standard error which lines of a script are bad, and why, and gives how many are.
pub fn tell_bad_lines<R: Eprint + AllocGlobal>(
    rt: &R,
    name: &str,
    profile: Profile,
    script: &[u8],
) -> Result<u64> {
    let mut rest = script;
    let mut number = 0u64;
    let mut bad = 0u64;
    while !rest.is_empty() {
        let (line, behind) = next_line(rest);
        number = number.saturating_add(1);
        if line.len() < MOST_INPUT {
            if let Some(wrong) = wrong_in(rt.alloc(), profile, line)? {
                bad = bad.saturating_add(1);
                let wrong = String::from_utf8_lossy(rt.alloc(), wrong.as_slice())?;
                let _ = eprintln!(rt; "em_debug: {name}: line {number}: {wrong}");
            }
        }
        rest = behind;
    }
    Ok(bad)
}

/// Says on standard error which typed lines were wrong, and gives how many were.
pub fn tell_marks<R: Eprint>(rt: &R, marks: &Marks) -> u64 {
    let (text, wrong) = marks.told();
    if let Ok(text) = str::from_utf8(text) {
        let _ = eprint!(rt; "{text}");
    }
    wrong
}

/// Why a file that is to be written may not be that, if one may not: it is also read.
pub fn file_fault<R: Files + AllocGlobal>(
    rt: &R,
    words: &Words,
    script: Option<&str>,
) -> Result<Option<String>> {
    if let Some(script) = script {
        if is_one_file(rt, script, OUTPUT) {
            return Ok(Some(format!(in rt.alloc();
                "{script}: standard output is this file too, and would be written over the script"
            )?));
        }
    }
    let Some(capture) = &words.capture else {
        return Ok(None);
    };
    let read = [
        script,
        match &words.commands {
            Some(commands) => Some(commands.as_str()),
            None => None,
        },
    ];
    for name in read.iter() {
        if let Some(name) = *name {
            if is_one_file(rt, capture.as_str(), name) {
                return Ok(Some(format!(in rt.alloc();
                    "--pcap {capture}: {name} is this file too, and would be written over"
                )?));
            }
        }
    }
    Ok(None)
}
