//! Comparing a script's answers with those that its lines expect.

use crate::faults::bench_text;
use crate::session::Served;
use anyhow::{Result, bail};
use em_debugger::{Compared, Debugger, Differing, Disk};
use em_known::{Causes, is_known};
use em_names::write_name;
use em_regs::Reg;
use em_script::BenchFault;
use std::alloc::AllocError;
use std::io;
use std::io::{BufWriter, Write};

/// How many digits a register's value has.
const DIGITS: usize = 8;

/// The last digit of a value, and how many bits it has.
const DIGIT: u32 = 0xF;

const DIGIT_BITS: u32 = 4;

/// Which of the answers that differ are shown.
#[derive(Clone, Copy)]
pub struct Wanted {
    /// The first of each register, and not only the first.
    pub all: bool,
    /// Those that differ for a known cause, too.
    pub known: bool,
}

/// How often answers differed that reads of a register gave; of other lines, where there is none.
#[derive(Clone, Copy)]
struct Count {
    reg: Option<Reg>,
    differed: u64,
}

/// Which answers differed, and what happened so far.
#[derive(Drop)]
struct Tally {
    counts: Vec<Count>,
    /// How many differed for a known cause.
    known: u64,
    causes: Causes,
    /// Behind how many lines these are the causes.
    lines: usize,
}

impl Tally {
    /// Counts one more, and says whether it is the first of its register.
    fn note(&mut self, reg: Option<Reg>) -> Result<bool, AllocError> {
        for count in self.counts.iter_mut() {
            if count.reg == reg {
                count.differed = count.differed.saturating_add(1);
                return Ok(false);
            }
        }
        self.counts.push(Count { reg, differed: 1 })?;
        Ok(true)
    }

    /// Goes to before a line, and says whether its answer differs for a known cause.
    fn is_known(&mut self, debugger: &Debugger, differing: Differing) -> bool {
        for line in self.lines..differing.line.saturating_sub(1) {
            self.causes = self
                .causes
                .after(debugger.line_played(line.saturating_add(1)));
        }
        self.lines = differing.line.saturating_sub(1);
        let Some(reg) = differing.reg else {
            return false;
        };
        let Some(here) = differing.value else {
            return false;
        };
        match wanted_value(debugger.line_expects(differing.line), here) {
            Some(wanted) => is_known(debugger.profile(), self.causes, reg, wanted, here),
            None => false,
        }
    }
}

/// Plays the lines that lie ahead up to the first whose answer differs for no known cause, or all, and shows those that are
/// wanted. Gives how many differed for a known cause.
pub fn compare<R: Print + AllocGlobal, D: Disk + Drop>(
    rt: &R,
    served: &mut Served<D>,
    wanted: Wanted,
) -> Result<u64> {
    let mut writer = BufWriter::new(rt.alloc(), io::writer(rt))?;
    let mut tally = Tally {
        counts: Vec::new(rt.alloc()),
        known: 0,
        causes: Causes::new(),
        lines: 0,
    };
    for _line in 0..u32::MAX {
        match served.debugger.compare() {
            Compared::Agrees => break,
            Compared::Differs(differing) => {
                if tell(
                    &mut writer,
                    &mut served.debugger,
                    &mut tally,
                    differing,
                    wanted,
                )? {
                    break;
                }
            }
            Compared::Stopped(fault) => bail!("{}", bench_text(fault)),
        }
    }
    if wanted.all {
        for count in tally.counts.iter() {
            write_count(&mut writer, count)?;
        }
    }
    if writer.flush().is_err() {
        bail!("{}", bench_text(BenchFault::Write));
    }
    Ok(tally.known)
}

/// Shows a line whose answer differs, if it is wanted, and says whether the comparison ends there.
fn tell<W: Write>(
    writer: &mut W,
    debugger: &mut Debugger,
    tally: &mut Tally,
    differing: Differing,
    wanted: Wanted,
) -> Result<bool> {
    let is_known = tally.is_known(debugger, differing);
    if is_known {
        tally.known = tally.known.saturating_add(1);
        if !wanted.known {
            return Ok(false);
        }
    }
    let is_first = tally.note(differing.reg)?;
    let is_shown = is_first || (is_known && !wanted.all);
    if is_shown && debugger.tell_differs(writer, differing, is_known).is_err() {
        bail!("{}", bench_text(BenchFault::Write));
    }
    Ok(!is_known && !wanted.all)
}

/// The value that is wanted, where a number is: of a digit that does not matter, the one that is there.
fn wanted_value(expected: &[u8], here: u32) -> Option<u32> {
    let digits = match expected {
        [b'0', b'x' | b'X', digits @ ..] => digits,
        digits => digits,
    };
    let mut wanted = [b'0'; DIGITS];
    let mut kept = 0;
    for at in 0..digits.len().min(DIGITS) {
        let digit = digits[digits.len() - 1 - at];
        if digit == b'-' {
            kept |= DIGIT << (DIGIT_BITS * at as u32);
        } else {
            wanted[DIGITS - 1 - at] = digit;
        }
    }
    let text = str::from_utf8(&wanted).ok()?;
    let number = u32::from_str_radix(text, 16).ok()?;
    Some(number | (here & kept))
}

/// Writes how often a register's answers differed.
fn write_count<W: Write>(writer: &mut W, count: &Count) -> Result<()> {
    let named = match count.reg {
        Some(reg) => write_name(writer, reg).is_ok(),
        None => write!(writer, "other lines").is_ok(),
    };
    if !named || writeln!(writer, ": {} differed", count.differed).is_err() {
        bail!("{}", bench_text(BenchFault::Write));
    }
    Ok(())
}
