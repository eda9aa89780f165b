//! A script made short: lines are left out as long as what was asked for still comes.
ghost use Rattle.std.specs.Prelude.{⊤};

use crate::disk::Host;
use crate::faults::bench_text;
use anyhow::{Result, bail};
use em_debugger::Debugger;
use em_journal::Settings;
use em_reduce::{Trial, reduce};
use em_script::BenchFault;
use em_text::{next_line, write_whole};
use std::alloc::AllocError;
use std::io;
use std::io::{BufWriter, Write};
use std::rt::Files;

/// What a rule's warning begins with, in what is asked for and in an answer.
const WARNING: &str = "warning ";

/// What is asked for where an answer is to differ from the one that its line expects.
const DIFFERS: &str = "differs";

/// What is to come.
#[derive(Clone, Copy)]
enum Sought<'a> {
    /// An answer differs from the one that its line expects.
    Differs,
    /// This stands in an answer, or in what stands behind it.
    Text(&'a [u8]),
}

/// A script's lines, some of which are played.
#[derive(Drop)]
struct Lines<'a, R: Files + AllocGlobal> {
    rt: &'a R,
    settings: Settings,
    lines: &'a [&'a [u8]],
    sought: Sought<'a>,
}

impl<R: Files + AllocGlobal> Trial for Lines<'_, R> {
    // What a session answers is the debugger's; here it is only looked for.
    ghost has = { λ lines items. ⊤ };

    fn try_on(&self, items: &[usize]) -> Result<bool, AllocError> {
        let alloc = self.rt.alloc();
        let mut text = Vec::new(alloc);
        for item in items {
            if let Some(line) = self.lines.get(*item) {
                text.extend_from_slice(*line)?;
                text.push(b'\n')?;
            }
        }
        let Ok(mut debugger) = Debugger::new(alloc, self.settings) else {
            return Err(AllocError);
        };
        if debugger.add_lines(text.as_slice()).is_err() {
            return Err(AllocError);
        }
        comes(self.rt, &mut debugger, items.len(), self.sought)
    }
}

/// Whether it comes as so many lines are played.
fn comes<R: Files + AllocGlobal>(
    rt: &R,
    debugger: &mut Debugger,
    lines: usize,
    sought: Sought<'_>,
) -> Result<bool, AllocError> {
    let mut text = Vec::new(rt.alloc());
    let mut disk = Host { rt };
    for _line in 0..lines {
        text.clear();
        if debugger.answer(&mut text, &mut disk, b"next").is_err() {
            return Err(AllocError);
        }
        let is_there = match sought {
            Sought::Differs => debugger.score().differed > 0,
            Sought::Text(wanted) => has(answer_in(text.as_slice()), wanted),
        };
        if is_there {
            return Ok(true);
        }
    }
    Ok(false)
}

/// What stands below a line that is shown with its answer.
fn answer_in(text: &[u8]) -> &[u8] {
    if text.is_empty() {
        return text;
    }
    next_line(text).1
}

/// Whether a text has another one in it.
fn has(text: &[u8], wanted: &[u8]) -> bool {
    for at in 0..text.len() {
        if text[at..].starts_with(wanted) {
            return true;
        }
    }
    false
}

/// Writes what is left of a script where lines are left out as long as it comes; none where it does not come at all. Gives
/// how many lines are left, and of how many. The head, if there is one, stays.
pub fn write_reduced<R: Files + Print + AllocGlobal>(
    rt: &R,
    settings: Settings,
    script: &[u8],
    has_head: bool,
    wanted: &str,
) -> Result<Option<(usize, usize)>> {
    let mut lines = Vec::new(rt.alloc());
    let mut rest = script;
    let mut head: &[u8] = b"";
    if has_head {
        (head, rest) = next_line_of(script);
    }
    while !rest.is_empty() {
        let (line, behind) = next_line(rest);
        lines.push(line)?;
        rest = behind;
    }
    let needle = needle_of(rt, wanted)?;
    let trial = Lines {
        rt,
        settings,
        lines: lines.as_slice(),
        sought: match wanted {
            DIFFERS => Sought::Differs,
            _ => Sought::Text(needle.as_slice()),
        },
    };
    let mut all = Vec::new(rt.alloc());
    for line in 0..lines.len() {
        all.push(line)?;
    }
    if !trial.try_on(all.as_slice())? {
        return Ok(None);
    }
    let left = reduce(rt.alloc(), &trial, all)?;
    write_left(rt, head, trial.lines, left.as_slice())?;
    Ok(Some((left.len(), trial.lines.len())))
}

fn next_line_of(script: &[u8]) -> (&[u8], &[u8]) {
    if script.is_empty() {
        return (script, script);
    }
    next_line(script)
}

/// What is looked for in answers: of a rule's warning, how that begins.
fn needle_of<R: AllocGlobal>(rt: &R, wanted: &str) -> Result<Vec<u8>> {
    let text = match wanted.strip_prefix(WARNING) {
        Some(rule) => format!(in rt.alloc(); "{WARNING}{rule}: ")?,
        None => String::from_str(rt.alloc(), wanted)?,
    };
    Ok(text.into_bytes())
}

/// Writes the head, and these lines.
fn write_left<R: Print + AllocGlobal>(
    rt: &R,
    head: &[u8],
    lines: &[&[u8]],
    left: &[usize],
) -> Result<()> {
    let mut writer = BufWriter::new(rt.alloc(), io::writer(rt))?;
    let mut is_written = head.is_empty() || write_line(&mut writer, head);
    for item in left {
        if let Some(line) = lines.get(*item) {
            is_written = is_written && write_line(&mut writer, *line);
        }
    }
    if !is_written || writer.flush().is_err() {
        bail!("{}", bench_text(BenchFault::Write));
    }
    Ok(())
}

fn write_line<W: Write>(writer: &mut W, line: &[u8]) -> bool {
    write_whole(writer, line).is_ok() && write_whole(writer, b"\n").is_ok()
}
