//! The bench program: runs a script on a machine that the options describe, and answers on standard
//! output.
//!
//! It only joins what em_options and em_ending promise: what the words say, the session over a new
//! machine, the script played and written out, and how all this ends.
#![tactic(auto)]

use em_ending::{Ending, play, session};
use em_options::{Options, OptionsRefused, options};
use em_script::{BenchFault, Session};
use std::fs::File;
use std::io::{self, BufWriter, Read};
use std::process::ExitCode;
use std::rt::{Env, Files};
use std::{env, mem};

/// How many octets of text are written at a time.
const WRITTEN_AT_ONCE: usize = 65_536;

fn main(rt: HostRuntime) -> ExitCode {
    let ending = bench(&rt);
    // The status says it too, also where standard error can't be written.
    let _ = ending.tell(&mut rt.stderr());
    ExitCode::from(ending.status())
}

/// Does what the words of the command line ask for.
fn bench(rt: &(impl Env + Files + Input + Print + Eprint + AllocGlobal)) -> Ending {
    let words = match words(rt) {
        Ok(words) => words,
        Err(error) => return without_words(rt, &error),
    };
    match options(rt.alloc(), words.as_slice()) {
        Ok(options) => with_options(rt, &options),
        Err(refused) => without_options(rt, &refused),
    }
}

/// The words of the command line, the program's name first.
fn words(rt: &(impl Env + AllocGlobal)) -> io::Result<Vec<String>> {
    Ok(env::args(rt)?.collect(rt.alloc())?)
}

/// Ends a run whose words can't be had.
fn without_words(rt: &impl Eprint, error: &io::Error) -> Ending {
    let ending = Ending::without_words(error);
    if matches!(ending, Ending::Parser) {
        let _ = eprintln!(rt; "error: the command line is not UTF-8");
    }
    ending
}

/// Ends a run whose words are refused, with what the parser has to say of them.
fn without_options(rt: &(impl Print + Eprint), refused: &OptionsRefused) -> Ending {
    let is_printed = match refused.told() {
        Some(error) => error.print(rt).is_ok(),
        None => true,
    };
    Ending::without_options(refused).after_print(is_printed)
}

/// Makes the machine, then opens the script and plays it.
fn with_options(rt: &(impl Files + Input + Print + AllocGlobal), options: &Options<'_>) -> Ending {
    match session(rt.alloc(), options.settings()) {
        Ok(mut session) => {
            let ending = with_session(rt, options.script, &mut session);
            // The system takes its memory back when the program ends, all at once.
            mem::forget(session);
            ending
        }
        Err(ending) => ending,
    }
}

/// Opens the script, which is standard input where it has no path, and plays it.
fn with_session(
    rt: &(impl Files + Input + Print + AllocGlobal),
    script: Option<&str>,
    session: &mut Session,
) -> Ending {
    match script {
        None => with_script(rt, &mut rt.reader(), session),
        Some(path) => match File::open(rt, path) {
            Ok(mut file) => with_script(rt, &mut file, session),
            Err(error) => Ending::without_script(&error),
        },
    }
}

/// Plays the script to standard output.
fn with_script(
    rt: &(impl Print + AllocGlobal),
    script: &mut impl Read,
    session: &mut Session,
) -> Ending {
    match BufWriter::with_capacity(rt.alloc(), WRITTEN_AT_ONCE, io::writer(rt)) {
        Ok(mut writer) => play(rt.alloc(), script, &mut writer, session),
        Err(_) => Ending::Fault(BenchFault::Memory),
    }
}
