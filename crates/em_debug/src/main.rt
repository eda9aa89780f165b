//! The debugger: a script is played on a machine that the options describe, and then lines are answered that somebody
//! types, or that another file has.
//!
//!     em_debug [OPTIONS] [--step] [-x COMMANDS] [SCRIPT]
//!     em_debug [OPTIONS] [--strict] --batch SCRIPT
//!     em_debug [OPTIONS] --compare [--all] SCRIPT
//!     em_debug [OPTIONS] --reduce WHAT SCRIPT
//!
//! The options are those of em_bench. The script is played to its end first; `--step` stops before its first line.
//! With `--json` each answer is an object of JSON.
//! `--batch` lists the lines with their answers, and ends; `--compare` compares the answers with those that lines expect.
#![tactic(auto)]

mod compare;
mod disk;
mod faults;
mod files;
mod help;
mod marks;
mod reduce;
mod session;
mod words;

use crate::compare::{Wanted, compare};
use crate::disk::Host;
use crate::faults::{NO_MEMORY, bench_text, console_fault, open_fault, see_commands};
use crate::files::{file_fault, read_script, tell_bad_lines, tell_marks};
use crate::help::{HELP, VERSION};
use crate::marks::Marks;
use crate::reduce::write_reduced;
use crate::session::Served;
use crate::words::{Asked, Words, WordsRefused};
use anyhow::{Result, bail};
use em_console::{Console, LineConsole, Objects, Stands, prompt_for, serve, write_opening};
use em_debugger::{Added, Debugger, Disk, Score};
use em_ending::Ending;
use em_input::{BASES, BUDGETS, Head, MACS, PROFILES, SIZES, take_head};
use em_journal::{Settings, SettingsRefusal};
use em_options::{Options, OptionsRefused, options};
use em_script::BenchFault;
use std::alloc::Global;
use std::fs::File;
use std::io::{self, BufRead, BufReader, BufWriter, Write};
use std::mem;
use std::process::ExitCode;
use std::rt::{Env, Files};

/// What a line is asked for with at a terminal.
const PROMPT: &[u8] = b"(em) ";

/// The status of a session that came to its end, and of help.
const WELL: u8 = 0;

/// The status where an answer was another than its line expects, or a line was bad; with `--strict` where one has a warning.
const DIFFERED: u8 = 1;

/// The status of a run that failed.
const FAILED: u8 = 3;

/// The status where the command line is refused.
const REFUSED: u8 = 2;

fn main(rt: HostRuntime) -> ExitCode {
    ExitCode::from(debug(&rt, prompt_for(&rt.stdin(), PROMPT)))
}

/// Does what the words of the command line ask for, and gives the status.
fn debug<R: Env + Files + Input + Print + Eprint + AllocGlobal>(rt: &R, prompt: &[u8]) -> u8 {
    match Words::read(rt) {
        Ok(words) => with_words(rt, &words, prompt),
        Err(WordsRefused::NoText(error)) => {
            let _ = eprintln!(rt; "em_debug: {error}");
            Ending::without_words(&error).status()
        }
        Err(WordsRefused::Memory) => failed(rt, NO_MEMORY),
        Err(WordsRefused::NoFile(option)) => {
            let _ = eprintln!(rt; "em_debug: {option} wants a file");
            REFUSED
        }
        Err(WordsRefused::Twice(option)) => {
            let _ = eprintln!(rt; "em_debug: {option} stands twice");
            REFUSED
        }
        Err(WordsRefused::NoAnswer) => refused(
            rt,
            "--reduce wants an answer, warning RULE or differs",
        ),
        Err(WordsRefused::NoBase) => refused(rt, BASES),
        Err(WordsRefused::NoProfile) => refused(rt, PROFILES),
    }
}

fn with_words<R: Files + Input + Print + Eprint + AllocGlobal>(
    rt: &R,
    words: &Words,
    prompt: &[u8],
) -> u8 {
    let asked = options(rt.alloc(), words.machine.options.as_slice());
    match (words.asked, asked) {
        // what is wrong before a word that asks for help is told first
        (_, Err(OptionsRefused::Parser(error))) => {
            without_options(rt, &OptionsRefused::Parser(error))
        }
        (Asked::Help, _) => told(rt, HELP),
        (Asked::Version, _) => told(rt, VERSION),
        (Asked::Session, Ok(options)) => with_options(rt, &options, words, prompt),
        (Asked::Session, Err(refused)) => without_options(rt, &refused),
    }
}

/// Prints a text, and gives the status.
fn told<R: Print>(rt: &R, text: &str) -> u8 {
    match print!(rt; "{text}") {
        Ok(()) => WELL,
        Err(_) => FAILED,
    }
}

/// Says why the run stopped, and gives the status.
fn failed<R: Eprint>(rt: &R, why: &str) -> u8 {
    let _ = eprintln!(rt; "em_debug: {why}");
    FAILED
}

/// Says what is wrong with the words, and gives the status.
fn refused<R: Eprint>(rt: &R, why: &str) -> u8 {
    let _ = eprintln!(rt; "em_debug: {why}");
    REFUSED
}

/// Says why the options are refused, and gives the status, which is em_bench's.
fn without_options<R: Print + Eprint>(rt: &R, refused: &OptionsRefused) -> u8 {
    let ending = Ending::without_options(refused);
    if let Ending::Fault(fault) = ending {
        return failed(rt, bench_text(fault));
    }
    let is_printed = match refused.told() {
        Some(error) => error.print(rt).is_ok(),
        None => eprintln!(rt; "em_debug: --mac: {MACS}").is_ok(),
    };
    ending.after_print(is_printed).status()
}

/// The script, where there is one, or why it is not read; and what it says that its machine was made of.
#[derive(Drop)]
struct Script<'a> {
    name: &'a str,
    text: Option<Result<Vec<u8>>>,
    head: Option<Head>,
}

impl<'a> Script<'a> {
    /// Reads it. Of a run that was kept as it happened a last line that was cut is left out.
    fn read<R: Files + Input + Eprint + AllocGlobal>(rt: &R, name: Option<&'a str>) -> Script<'a> {
        let Some(name) = name else {
            return Script {
                name: "",
                text: None,
                head: None,
            };
        };
        let mut read = read_script(rt, name);
        let mut head = None;
        if let Ok(text) = &mut read {
            head = take_head(rt.alloc(), text).unwrap_or_default();
            if head.is_some_and(|head| head.has_eeprom) {
                let _ = eprintln!(rt; "em_debug: {name}: line 2: the EEPROM's words are not taken");
            }
        }
        Script {
            name,
            text: Some(read),
            head,
        }
    }
}

/// Makes the machine, plays the script, answers lines, and gives the status.
fn with_options<R: Files + Input + Print + Eprint + AllocGlobal>(
    rt: &R,
    options: &Options<'_>,
    words: &Words,
    prompt: &[u8],
) -> u8 {
    if let Some(fault) = words.fault(options.script) {
        return refused(rt, fault);
    }
    match file_fault(rt, words, options.script) {
        Ok(None) => {}
        Ok(Some(fault)) => return refused(rt, fault.as_str()),
        Err(_) => return failed(rt, NO_MEMORY),
    }
    let script = Script::read(rt, options.script);
    let settings = words.machine.settings(options.settings(), script.head);
    if let Some(wanted) = &words.reduce {
        return with_reduced(rt, settings, script, wanted.as_str());
    }
    match Debugger::new(rt.alloc(), settings) {
        Ok(debugger) => {
            let served = Served {
                debugger,
                disk: Host { rt },
                marks: None,
                last: None,
            };
            let mut served = Objects::new(rt.alloc(), served);
            let ended = with_capture(rt, &mut served, script, words, prompt);
            let score = served.session.debugger.score();
            let is_warned = words.strict && served.session.debugger.has_warnings();
            // The system takes its memory back when the program ends, all at once.
            mem::forget(served);
            match ended {
                Ok(found) if is_warned => with_score(rt, score, found, words).max(DIFFERED),
                Ok(found) => with_score(rt, score, found, words),
                Err(error) => {
                    let _ = eprintln!(rt; "em_debug: {error}");
                    FAILED
                }
            }
        }
        Err(refusal) => without_machine(rt, settings, refusal),
    }
}

/// Writes what is left of the script, and gives the status.
fn with_reduced<R: Files + Print + Eprint + AllocGlobal>(
    rt: &R,
    settings: Settings,
    script: Script<'_>,
    wanted: &str,
) -> u8 {
    let has_head = script.head.is_some();
    let reduced = match script.text {
        Some(Ok(text)) => write_reduced(rt, settings, text.as_slice(), has_head, wanted),
        Some(Err(error)) => Err(error),
        None => Ok(None),
    };
    match reduced {
        Ok(Some((left, lines))) => {
            let _ = eprintln!(rt; "em_debug: {left} of {lines} lines are left");
            WELL
        }
        Ok(None) => {
            let _ = eprintln!(rt; "em_debug: --reduce {wanted}: it does not come");
            DIFFERED
        }
        Err(error) => {
            let _ = eprintln!(rt; "em_debug: {error}");
            FAILED
        }
    }
}

/// Says why there is no machine, and gives the status.
fn without_machine<R: Eprint>(rt: &R, settings: Settings, refusal: SettingsRefusal) -> u8 {
    let Settings {
        base,
        memory,
        budget,
        ..
    } = settings;
    match refusal {
        SettingsRefusal::Size => {
            let _ = eprintln!(rt; "em_debug: --memory {memory} --base {base:X}: {SIZES}");
            REFUSED
        }
        SettingsRefusal::Budget => {
            let _ = eprintln!(rt; "em_debug: --budget {budget}: {BUDGETS}");
            REFUSED
        }
        SettingsRefusal::Memory => failed(rt, NO_MEMORY),
    }
}

/// What a run found besides the score: how many lines were bad, and how many answers differed for a known cause.
#[derive(Clone, Copy)]
struct Found {
    bad: u64,
    known: u64,
}

/// Prints how many answers were as their lines expect, where any expects one or a whole script was played, and gives the
/// status.
fn with_score<R: Print>(rt: &R, score: Score, found: Found, words: &Words) -> u8 {
    let Score {
        agreed,
        differed,
        warnings,
    } = score;
    let Found { bad, known } = found;
    let differed = differed.saturating_sub(known);
    let is_told = if words.compare {
        println!(rt;
            "agreed {agreed}, known {known}, differed {differed}, bad {bad}, warnings {warnings}"
        ).is_ok()
    } else if words.json {
        println!(rt; "{{\"end\":{{\"agreed\":{agreed},\"differed\":{differed}}}}}").is_ok()
    } else if words.batch {
        println!(rt; "agreed {agreed}, differed {differed}, bad {bad}, warnings {warnings}").is_ok()
    } else {
        (agreed == 0 && differed == 0)
            || println!(rt; "agreed {agreed}, differed {differed}").is_ok()
    };
    if !is_told {
        return FAILED;
    }
    if differed == 0 && bad == 0 {
        WELL
    } else {
        DIFFERED
    }
}

/// Does what is wanted with the script, and then writes the frames that were sent, if they are wanted. Gives how many lines
/// were bad.
fn with_capture<R: Files + Input + Print + Eprint + AllocGlobal>(
    rt: &R,
    served: &mut Objects<Served<Host<'_, R>>>,
    script: Script<'_>,
    words: &Words,
    prompt: &[u8],
) -> Result<Found> {
    let found = with_session(rt, served, script, words, prompt)?;
    if let Some(name) = &words.capture {
        let Served { debugger, disk, .. } = &mut served.session;
        let saved = debugger.save_capture(disk, name.as_str().as_bytes(), true);
        if saved.is_err() {
            bail!("{name}: the capture cannot be written");
        }
    }
    Ok(found)
}

/// Plays the script, opens where lines come from, and answers them. Gives how many lines were bad.
fn with_session<R: Files + Input + Print + Eprint + AllocGlobal>(
    rt: &R,
    served: &mut Objects<Served<Host<'_, R>>>,
    script: Script<'_>,
    words: &Words,
    prompt: &[u8],
) -> Result<Found> {
    let mut text = Vec::new(rt.alloc());
    let mut bad = 0;
    let Script {
        name,
        text: read,
        ..
    } = script;
    if let Some(read) = read {
        let script = read?;
        let debugger = &mut served.session.debugger;
        let added = debugger.add_lines(script.as_slice());
        // Where all were added and none is bad, they need not be looked at again.
        if !matches!(added, Ok(Added { are_read: true, .. })) {
            bad = tell_bad_lines(rt, name, debugger.profile(), script.as_slice())?;
        }
        drop(script);
        if words.batch || words.compare {
            let known = play(rt, &mut served.session, words, added)?;
            return Ok(Found { bad, known });
        }
        let begun = debugger.begin_added(&mut text, added, words.step);
        if begun.is_err() {
            bail!("{NO_MEMORY}");
        }
    }
    match &words.commands {
        Some(path) => {
            let source = Source {
                name: path.as_str(),
                prompt: b"",
                script: name,
                is_json: words.json,
            };
            let wrong = with_commands(rt, served, text.as_slice(), source)?;
            Ok(Found {
                bad: bad.saturating_add(wrong),
                known: 0,
            })
        }
        None => {
            let reader = BufReader::new(rt.alloc(), rt.reader())?;
            let prompt: &[u8] = if words.json { b"" } else { prompt };
            if !prompt.is_empty() {
                served.session.last = Some(Vec::new(rt.alloc()));
            }
            let source = Source {
                name: "standard input",
                prompt,
                script: name,
                is_json: words.json,
            };
            with_reader(rt, served, reader, text.as_slice(), source)?;
            Ok(Found { bad, known: 0 })
        }
    }
}

/// Plays lines that were added to their end, and lists them or compares their answers. Gives how many differed for a known
/// cause.
fn play<R: Print + AllocGlobal, D: Disk + Drop>(
    rt: &R,
    served: &mut Served<D>,
    words: &Words,
    added: Result<Added, BenchFault>,
) -> Result<u64> {
    if let Err(fault) = added {
        bail!("{}", bench_text(fault));
    }
    if words.batch {
        list(rt, served)?;
        return Ok(0);
    }
    let wanted = Wanted {
        all: words.all,
        known: words.all_known,
    };
    compare(rt, served, wanted)
}

/// Answers the lines of a file, and gives how many of them were wrong.
fn with_commands<R: Files + Print + Eprint + AllocGlobal, D: Disk + Drop>(
    rt: &R,
    served: &mut Objects<Served<D>>,
    text: &[u8],
    source: Source<'_>,
) -> Result<u64> {
    let path = source.name;
    let file = match File::open(rt, path) {
        Ok(file) => file,
        Err(error) => return Err(open_fault(path, &error)),
    };
    let mut reader = BufReader::new(rt.alloc(), file)?;
    see_commands(path, &mut reader)?;
    let head = format!(in rt.alloc(); "em_debug: {path}")?;
    let profile = served.session.debugger.profile();
    served.session.marks = Some(Marks::new(rt.alloc(), profile, head.into_bytes()));
    let ended = with_reader(rt, served, reader, text, source);
    let wrong = match &served.session.marks {
        Some(marks) => tell_marks(rt, marks),
        None => 0,
    };
    ended?;
    Ok(wrong)
}

/// Prints each line of the script with its answer beside it.
fn list<R: Print + AllocGlobal, D: Disk + Drop>(rt: &R, served: &mut Served<D>) -> Result<()> {
    let mut writer = BufWriter::new(rt.alloc(), io::writer(rt))?;
    if served.debugger.list_all(&mut writer).is_err() || writer.flush().is_err() {
        bail!("{}", bench_text(BenchFault::Write));
    }
    Ok(())
}

/// Where lines come from, what each is asked for with, of which script they ask, and whether they are answered by objects.
#[derive(Clone, Copy)]
struct Source<'a> {
    name: &'a str,
    prompt: &'a [u8],
    script: &'a str,
    is_json: bool,
}

/// Tells what the script did, and answers each line of a reader.
fn with_reader<R: Print + AllocGlobal, D: Disk + Drop, B: BufRead + Drop>(
    rt: &R,
    served: &mut Objects<Served<D>>,
    reader: B,
    text: &[u8],
    source: Source<'_>,
) -> Result<()> {
    let writer = BufWriter::new(rt.alloc(), io::writer(rt))?;
    let mut console = LineConsole::new(reader, writer, source.prompt);
    let told = if source.is_json {
        let opening = opening(rt.alloc(), &served.session, text, source.script)?;
        console.tell(opening.as_slice())
    } else {
        console.tell(text)
    };
    if let Err(fault) = told {
        return Err(console_fault(fault, source.name));
    }
    let ended = if source.is_json {
        serve(rt.alloc(), &mut console, served)
    } else {
        serve(rt.alloc(), &mut console, &mut served.session)
    };
    match ended {
        Ok(_) => Ok(()),
        Err(fault) => Err(console_fault(fault, source.name)),
    }
}

/// What a script did, as an object.
fn opening<D: Disk + Drop>(
    alloc: Global,
    served: &Served<D>,
    text: &[u8],
    script: &str,
) -> Result<Vec<u8>> {
    let mut opening = Vec::new(alloc);
    let (standing, source) = (served.standing(), served.source());
    if write_opening(&mut opening, script.as_bytes(), text, standing, source).is_err() {
        bail!("{NO_MEMORY}");
    }
    Ok(opening)
}
