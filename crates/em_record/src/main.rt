//! The recorder: plays a script on a machine that the options describe, and writes the record of the run.
//!
//!     em_record [OPTIONS] [SCRIPT] > run.jsonl
//!
//! The options are those of em_bench.
#![tactic(auto)]

mod explained;
mod fault;
mod held;
mod help;
mod line;
mod recorder;

use crate::fault::RecordFault;
use crate::help::{HELP, VERSION};
use crate::recorder::Recorder;
use em_ending::Ending;
use em_input::{
    BASES, BUDGETS, Head, InputRefused, MACS, MOST_INPUT, MachineWords, PROFILES, SIZES,
    WordRefused, input_of, is_one_file, take_head, wrong_in,
};
use em_journal::{Settings, SettingsRefusal};
use em_options::{Options, OptionsRefused, options};
use em_regs::Profile;
use em_script::BenchFault;
use em_text::next_line;
use std::alloc::AllocError;
use std::io::{self, BufWriter, Write};
use std::process::ExitCode;
use std::rt::{Env, Files};
use std::{env, mem};

/// Standard input as a script, which is the script where none is named.
const STANDARD_INPUT: &str = "-";

/// Where the host has standard output among its files.
const OUTPUT: &str = "/dev/stdout";

/// How many octets of text are written at a time.
const WRITTEN_AT_ONCE: usize = 65_536;

/// The status of a record that is whole, and of help.
const WELL: u8 = 0;

/// The status where a line was bad, or the run can't be recorded.
const UNRECORDED: u8 = 1;

/// The status where the command line is refused.
const REFUSED: u8 = 2;

/// The status of a run that stopped.
const STOPPED: u8 = 3;

fn main(rt: HostRuntime) -> ExitCode {
    ExitCode::from(with_runtime(&rt))
}

/// Does what the words of the command line ask for, and gives the status.
fn with_runtime<R: Env + Files + Input + Print + Eprint + AllocGlobal>(rt: &R) -> u8 {
    let given = match env::args(rt) {
        Ok(given) => given,
        Err(error) => {
            let _ = eprintln!(rt; "em_record: {error}");
            return Ending::without_words(&error).status();
        }
    };
    let mut words = MachineWords::new(rt.alloc());
    for word in given {
        if let Err(refused) = words.take(rt.alloc(), word) {
            return without_word(rt, refused);
        }
    }
    if let Some(refused) = words.lacks() {
        return without_word(rt, refused);
    }
    with_words(rt, &words)
}

/// Says why a word is refused, and gives the status.
fn without_word<R: Eprint>(rt: &R, refused: WordRefused) -> u8 {
    let _ = match refused {
        WordRefused::Base => eprintln!(rt; "em_record: {BASES}"),
        WordRefused::TwoBases => eprintln!(rt; "em_record: --base stands twice"),
        WordRefused::Profile => eprintln!(rt; "em_record: {PROFILES}"),
        WordRefused::TwoProfiles => eprintln!(rt; "em_record: --profile stands twice"),
        WordRefused::Memory => return stopped(rt, BenchFault::Memory),
    };
    REFUSED
}

/// Help and version, as em_bench has them: what is wrong before a word that asks for them is told first.
fn with_words<R: Files + Input + Print + Eprint + AllocGlobal>(rt: &R, words: &MachineWords) -> u8 {
    match options(rt.alloc(), words.options.as_slice()) {
        Ok(options) => with_options(rt, &options, words),
        Err(refused) => match asked(words.options.as_slice(), &refused) {
            Some(text) => told(rt, text),
            None => without_options(rt, &refused),
        },
    }
}

/// What is to be printed, where the words ask for help or the version.
fn asked(words: &[String], refused: &OptionsRefused) -> Option<&'static str> {
    if !matches!(Ending::without_options(refused), Ending::Help) {
        return None;
    }
    for word in words {
        match word.as_str() {
            "-h" | "--help" => return Some(HELP),
            "-V" | "--version" => return Some(VERSION),
            _ => {}
        }
    }
    Some(HELP)
}

/// Prints a text, and gives the status.
fn told<R: Print>(rt: &R, text: &str) -> u8 {
    match print!(rt; "{text}") {
        Ok(()) => WELL,
        Err(_) => STOPPED,
    }
}

/// Says why the run stopped, and gives the status.
fn stopped<R: Eprint>(rt: &R, fault: BenchFault) -> u8 {
    let why = match fault {
        BenchFault::Read => "the script cannot be read",
        BenchFault::Write => "standard output cannot be written",
        BenchFault::TooLarge => "a line is too long, or there are too many",
        BenchFault::Memory => "no memory",
    };
    let _ = eprintln!(rt; "em_record: {why}");
    STOPPED
}

/// Says why the options are refused, and gives the status, which is em_bench's.
fn without_options<R: Print + Eprint>(rt: &R, refused: &OptionsRefused) -> u8 {
    let ending = Ending::without_options(refused);
    if let Ending::Fault(fault) = ending {
        return stopped(rt, fault);
    }
    let is_printed = match refused.told() {
        Some(error) => error.print(rt).is_ok(),
        None => eprintln!(rt; "em_record: --mac: {MACS}").is_ok(),
    };
    ending.after_print(is_printed).status()
}

/// Says that the words ask for what may not be, and gives the status.
fn refused_over<R: Eprint>(rt: &R, name: &str) -> u8 {
    let _ = eprintln!(rt;
        "em_record: {name}: standard output is this file too, and would be written over the script"
    );
    REFUSED
}

/// Reads the script, makes the machine that it and the words say, and records the run. What is wrong with the settings is told
/// before what is wrong with the script.
fn with_options<R: Files + Input + Print + Eprint + AllocGlobal>(
    rt: &R,
    options: &Options<'_>,
    words: &MachineWords,
) -> u8 {
    let name = options.script.unwrap_or(STANDARD_INPUT);
    if is_one_file(rt, name, OUTPUT) {
        return refused_over(rt, name);
    }
    let mut script = input_of(rt, name);
    let Ok(head) = head_of(rt, name, &mut script) else {
        return stopped(rt, BenchFault::Memory);
    };
    let settings = words.settings(options.settings(), head);
    let script = match &script {
        Ok(script) => Ok(script.as_slice()),
        Err(refused) => Err(*refused),
    };
    with_settings(rt, name, settings, script)
}

/// Makes the machine, and records the run of a script, if there is one.
fn with_settings<R: Print + Eprint + AllocGlobal>(
    rt: &R,
    name: &str,
    settings: Settings,
    script: Result<&[u8], InputRefused>,
) -> u8 {
    match Recorder::new(rt.alloc(), settings) {
        Ok(mut recorder) => {
            let status = match script {
                Ok(script) => with_recorder(rt, name, script, &mut recorder),
                Err(refused) => without_script(rt, name, refused),
            };
            // The system takes its memory back when the program ends, all at once.
            mem::forget(recorder);
            status
        }
        Err(refusal) => without_machine(rt, settings, refusal),
    }
}

/// The head of a script that was read, if it has one.
fn head_of<R: Eprint + AllocGlobal>(
    rt: &R,
    name: &str,
    script: &mut Result<Vec<u8>, InputRefused>,
) -> Result<Option<Head>, AllocError> {
    let Ok(script) = script else {
        return Ok(None);
    };
    let head = take_head(rt.alloc(), script)?;
    if head.is_some_and(|head| head.has_eeprom) {
        let _ = eprintln!(rt; "em_record: {name}: line 2: the EEPROM's words are not taken");
    }
    Ok(head)
}

/// Says why there is no machine, and gives the status.
fn without_machine<R: Eprint>(rt: &R, settings: Settings, refusal: SettingsRefusal) -> u8 {
    let Settings {
        base,
        memory,
        budget,
        ..
    } = settings;
    let _ = match refusal {
        SettingsRefusal::Size => eprintln!(rt;
            "em_record: --memory {memory} --base {base:X}: {SIZES}"
        ),
        SettingsRefusal::Budget => eprintln!(rt; "em_record: --budget {budget}: {BUDGETS}"),
        SettingsRefusal::Memory => return stopped(rt, BenchFault::Memory),
    };
    REFUSED
}

/// Says what is wrong with the lines of a script, and records it.
fn with_recorder<R: Print + Eprint + AllocGlobal>(
    rt: &R,
    name: &str,
    script: &[u8],
    recorder: &mut Recorder,
) -> u8 {
    match tell_bad_lines(rt, name, recorder.profile(), script) {
        Ok(()) => with_script(rt, recorder, script),
        Err(AllocError) => stopped(rt, BenchFault::Memory),
    }
}

/// Says why there is no script, and gives the status.
fn without_script<R: Eprint>(rt: &R, name: &str, refused: InputRefused) -> u8 {
    let _ = match refused {
        InputRefused::Missing => eprintln!(rt; "em_record: {name}: there is no such file"),
        InputRefused::Unread => eprintln!(rt; "em_record: {name}: the script cannot be read"),
        InputRefused::Memory => eprintln!(rt; "em_record: {name}: no memory"),
        InputRefused::Compressed => eprintln!(rt;
            "em_record: {name}: it is compressed by gzip: `gzip -dc` makes a script of it"
        ),
        InputRefused::TooLarge(Some(size)) => eprintln!(rt;
            "em_record: {name}: it has {size} octets, and a script at most {MOST_INPUT}"
        ),
        InputRefused::TooLarge(None) => eprintln!(rt;
            "em_record: {name}: it has more than {MOST_INPUT} octets"
        ),
    };
    STOPPED
}

/// Says on standard error which lines of a script are bad, and why.
fn tell_bad_lines<R: Eprint + AllocGlobal>(
    rt: &R,
    name: &str,
    profile: Profile,
    script: &[u8],
) -> Result<(), AllocError> {
    let mut rest = script;
    let mut number = 0u64;
    while !rest.is_empty() {
        let (line, behind) = next_line(rest);
        number = number.saturating_add(1);
        if line.len() < MOST_INPUT {
            if let Some(wrong) = wrong_in(rt.alloc(), profile, line)? {
                let wrong = String::from_utf8_lossy(rt.alloc(), wrong.as_slice())?;
                let _ = eprintln!(rt; "em_record: {name}: line {number}: {wrong}");
            }
        }
        rest = behind;
    }
    Ok(())
}

/// Writes the record of a script to standard output.
fn with_script<R: Print + Eprint + AllocGlobal>(
    rt: &R,
    recorder: &mut Recorder,
    script: &[u8],
) -> u8 {
    match BufWriter::with_capacity(rt.alloc(), WRITTEN_AT_ONCE, io::writer(rt)) {
        Ok(mut writer) => {
            let ran = recorder.record(&mut writer, script);
            if writer.flush().is_err() {
                return stopped(rt, BenchFault::Write);
            }
            with_record(rt, ran)
        }
        Err(_) => stopped(rt, BenchFault::Memory),
    }
}

/// Says what is wrong with a record, if anything is, and gives the status.
fn with_record<R: Eprint>(rt: &R, ran: Result<bool, RecordFault>) -> u8 {
    match ran {
        Ok(false) => WELL,
        Ok(true) => UNRECORDED,
        Err(RecordFault::Bench(fault)) => stopped(rt, fault),
        Err(RecordFault::JournalTooSmall(line)) => {
            let _ = eprintln!(rt;
                "em_record: line {line}: it performed more events than the journal holds"
            );
            UNRECORDED
        }
    }
}
