//! The words of the command line.

use em_input::{MachineWords, WordRefused};
use std::alloc::{AllocError, Global};
use std::rt::Env;
use std::{env, io};

/// What the words ask for beside em_bench's options.
#[derive(Clone, Copy)]
pub enum Asked {
    /// A session.
    Session,
    /// The help.
    Help,
    /// The version.
    Version,
}

/// The words, told apart.
#[derive(Drop)]
pub struct Words {
    /// The words that say what the machine is made of.
    pub machine: MachineWords,
    /// Whether the script is only loaded at first.
    pub step: bool,
    /// Whether the script is listed, and nothing is asked for.
    pub batch: bool,
    /// Whether the script's answers are compared with those that its lines expect, and nothing is asked for.
    pub compare: bool,
    /// Whether that goes on behind the first that differs.
    pub all: bool,
    /// Whether it shows those that differ for a known cause, too.
    pub all_known: bool,
    /// Whether a warning makes the status 1.
    pub strict: bool,
    /// Whether each answer is an object of JSON.
    pub json: bool,
    /// What is to come still as lines of the script are left out.
    pub reduce: Option<String>,
    /// The file that commands come from.
    pub commands: Option<String>,
    /// The file that the sent frames go to at the end.
    pub capture: Option<String>,
    pub asked: Asked,
}

/// Why there are no words.
#[derive(Drop)]
pub enum WordsRefused {
    /// One of them is no text, or memory was refused to have them.
    NoText(io::Error),
    /// Memory was refused to tell them apart.
    Memory,
    /// No file stands behind this option.
    NoFile(&'static str),
    /// Nothing stands behind `--reduce`.
    NoAnswer,
    /// This option stands twice.
    Twice(&'static str),
    /// No address stands behind `--base`.
    NoBase,
    /// No profile stands behind `--profile`.
    NoProfile,
}

impl From<AllocError> for WordsRefused {
    fn from(_: AllocError) -> WordsRefused {
        WordsRefused::Memory
    }
}

impl From<WordRefused> for WordsRefused {
    fn from(refused: WordRefused) -> WordsRefused {
        match refused {
            WordRefused::Base => WordsRefused::NoBase,
            WordRefused::TwoBases => WordsRefused::Twice("--base"),
            WordRefused::Profile => WordsRefused::NoProfile,
            WordRefused::TwoProfiles => WordsRefused::Twice("--profile"),
            WordRefused::Memory => WordsRefused::Memory,
        }
    }
}

impl Words {
    /// Reads the words of the command line, up to one that asks for help or the version.
    pub fn read<R: Env + AllocGlobal>(rt: &R) -> Result<Words, WordsRefused> {
        let mut words = Words {
            machine: MachineWords::new(rt.alloc()),
            step: false,
            batch: false,
            compare: false,
            all: false,
            all_known: false,
            strict: false,
            json: false,
            reduce: None,
            commands: None,
            capture: None,
            asked: Asked::Session,
        };
        let given = match env::args(rt) {
            Ok(given) => given,
            Err(error) => return Err(WordsRefused::NoText(error)),
        };
        let mut before = Before::Other;
        for word in given {
            if words.asked == Asked::Session {
                before = words.take(rt.alloc(), before, word)?;
            }
        }
        match before {
            Before::Commands => Err(WordsRefused::NoFile("-x")),
            Before::Capture => Err(WordsRefused::NoFile("--pcap")),
            Before::Reduce => Err(WordsRefused::NoAnswer),
            Before::Scripts | Before::Other => match words.machine.lacks() {
                Some(refused) => Err(WordsRefused::from(refused)),
                None => Ok(words),
            },
        }
    }

    /// Takes a word, and gives what it is to the next.
    fn take(
        &mut self,
        alloc: Global,
        before: Before,
        word: String,
    ) -> Result<Before, WordsRefused> {
        match before {
            Before::Commands => self.take_commands(word)?,
            Before::Capture => self.take_capture(word)?,
            Before::Reduce => self.take_reduce(word)?,
            Before::Scripts => {
                self.machine.take(alloc, word)?;
                return Ok(Before::Scripts);
            }
            Before::Other if self.machine.awaits_value() => self.machine.take(alloc, word)?,
            Before::Other => return self.take_option(alloc, word),
        }
        Ok(Before::Other)
    }

    /// Takes a word that is no option's value.
    fn take_option(&mut self, alloc: Global, word: String) -> Result<Before, WordsRefused> {
        match word.as_str() {
            "-x" => return Ok(Before::Commands),
            "--pcap" => return Ok(Before::Capture),
            "--reduce" => return Ok(Before::Reduce),
            "--step" => set(&mut self.step, "--step")?,
            "--batch" => set(&mut self.batch, "--batch")?,
            "--compare" => set(&mut self.compare, "--compare")?,
            "--all" => set(&mut self.all, "--all")?,
            "--all-known" => set(&mut self.all_known, "--all-known")?,
            "--strict" => set(&mut self.strict, "--strict")?,
            "--json" => set(&mut self.json, "--json")?,
            "-h" | "--help" => self.asked = Asked::Help,
            "-V" | "--version" => self.asked = Asked::Version,
            "--" => {
                self.machine.take(alloc, word)?;
                return Ok(Before::Scripts);
            }
            text => match text.strip_prefix("--pcap=") {
                Some(name) => self.take_capture(String::from_str(alloc, name)?)?,
                None => self.machine.take(alloc, word)?,
            },
        }
        Ok(Before::Other)
    }

    fn take_commands(&mut self, word: String) -> Result<(), WordsRefused> {
        if self.commands.is_some() {
            return Err(WordsRefused::Twice("-x"));
        }
        self.commands = Some(word);
        Ok(())
    }

    fn take_capture(&mut self, word: String) -> Result<(), WordsRefused> {
        if self.capture.is_some() {
            return Err(WordsRefused::Twice("--pcap"));
        }
        self.capture = Some(word);
        Ok(())
    }

    fn take_reduce(&mut self, word: String) -> Result<(), WordsRefused> {
        if self.reduce.is_some() {
            return Err(WordsRefused::Twice("--reduce"));
        }
        self.reduce = Some(word);
        Ok(())
    }

    /// Which of its words do not go together, or lack something, with a script or without one; the first, if there is one.
    pub fn fault(&self, script: Option<&str>) -> Option<&'static str> {
        if self.reduce.is_some() {
            return self.fault_beside_reduce(script);
        }
        if self.batch && self.compare {
            return Some("--batch and --compare do not go together");
        }
        if self.batch {
            return self.fault_beside("--batch", script);
        }
        if self.compare {
            return self.fault_beside("--compare", script);
        }
        if self.all || self.all_known {
            return Some("--all and --all-known go with --compare");
        }
        match script {
            None if self.step => Some("--step wants a script"),
            Some("-") if self.commands.is_none() => Some(
                "a script of standard input goes with --batch, --compare, --reduce or -x: what is typed comes from there",
            ),
            _ => None,
        }
    }

    /// The same beside `--reduce`.
    fn fault_beside_reduce(&self, script: Option<&str>) -> Option<&'static str> {
        let has_mode = self.batch || self.compare || self.json || self.step || self.strict;
        let has_file = self.commands.is_some() || self.capture.is_some();
        if has_mode || has_file || self.all || self.all_known {
            return Some("--reduce goes with no other mode: it writes a script, and ends");
        }
        match script {
            None => Some("--reduce wants a script"),
            Some(_) => None,
        }
    }

    /// The same beside `--batch` or `--compare`.
    fn fault_beside(&self, mode: &str, script: Option<&str>) -> Option<&'static str> {
        let is_batch = mode == "--batch";
        match script {
            None if is_batch => return Some("--batch wants a script"),
            None => return Some("--compare wants a script"),
            Some(_) => {}
        }
        if is_batch && (self.all || self.all_known) {
            return Some("--all and --all-known go with --compare");
        }
        if self.step {
            return Some(
                "--step does not go with --batch or --compare: they play the script to its end",
            );
        }
        if self.commands.is_some() {
            return Some("-x does not go with --batch or --compare: nothing is typed there");
        }
        if self.json {
            return Some("--json does not go with --batch or --compare: nothing is typed there");
        }
        None
    }
}

/// Sets what an option says, which may stand once.
fn set(flag: &mut bool, name: &'static str) -> Result<(), WordsRefused> {
    if *flag {
        return Err(WordsRefused::Twice(name));
    }
    *flag = true;
    Ok(())
}

/// What the word before one is to it.
#[derive(Clone, Copy)]
enum Before {
    /// `-x`, which a file follows.
    Commands,
    /// `--pcap`, which a file follows.
    Capture,
    /// `--reduce`, which what is to come follows.
    Reduce,
    /// `--`, behind which each word is a script.
    Scripts,
    Other,
}
