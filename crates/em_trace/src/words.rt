//! The words of the command line.

use crate::ranges::Lines;
use crate::rings::Room;
use crate::shown::Address;
use crate::translating::{Link, Wanted};
use clap::{Arg, ArgAction, ArgMatches, Command, Error, value_parser};
use em_input::{SIZES, profile_of, size_of};
use em_log::Form;
use em_mem::{GuestMemory, MemRefusal};
use em_regs::Profile;
use em_text::Words;
use std::alloc::{AllocError, Global};
use std::fmt;

/// The version that `--version` prints.
const VERSION: &str = "0.1.0";

/// What the program is.
const ABOUT: &str = "\
Turns a log of an 82540EM's register accesses into a script of em_bench's language on standard output: writes as they
are, reads with the value that the log has as the answer that is expected.";

/// Which logs are read, an example, and the statuses.
const LOGS: &str = "\
The logs: QEMU's trace events memory_region_ops_read and memory_region_ops_write (-trace, or simpletrace.py), Linux's
mmiotrace, and lines with `read 0xOFFSET 0xVALUE` or `write 0xOFFSET 0xVALUE` in them, as a driver prints them; it may
print what it writes into guest memory, too, as `mem 0xADDRESS OCTETS`.

For example, `em_trace qemu.log > driver.em && em_debug driver.em`.

The status is 0, or 1 where a line could not be read or none is an access of the adapter, 2 where the command line was
bad, 3 where the run stopped.";

/// What `--form` takes.
const FORMS: &[&str] = &["qemu", "mmiotrace", "plain"];

/// What `--profile` takes.
const PROFILES: &[&str] = &["table", "adapter"];

/// What `--link` takes.
const LINKS: &[&str] = &["up", "down"];

/// Why words that the parser took are refused.
#[derive(Clone, Copy)]
pub enum WordsRefused {
    /// What stands behind `--base` is no address.
    Base,
    /// What stands behind `--mac` is no address.
    Mac,
    /// `--from` and `--to` name no lines.
    Lines,
    /// `--at` names a line that is not translated.
    At,
    /// What stands behind `--memory` is no size, or `--memory-base` has no address or no size beside it.
    Memory,
    /// No machine can have such memory.
    Room(Room),
}

impl fmt::Display for WordsRefused {
    fn fmt<W: fmt::Write>(&self, f: &mut fmt::Formatter<W>) -> fmt::Result {
        if let WordsRefused::Room(Room { base, size }) = self {
            write!(f, "--memory {size} --memory-base {base:X}: ")?;
        }
        f.write_str(match self {
            WordsRefused::Base => "--base wants 1 to 16 hexadecimal digits",
            WordsRefused::Mac =>
                "--mac wants 6 octets of two hexadecimal digits, with colons between them or without",
            WordsRefused::Lines =>
                "--from and --to want lines of the log, from 1 on, and --to none before --from; \
                 --form says what the log looks like",
            WordsRefused::At => "--at wants a line from --from to --to",
            WordsRefused::Memory =>
                "--memory wants octets, or so many K, M or G, and --memory-base beside it 1 to 16 hexadecimal digits",
            WordsRefused::Room(_) => SIZES,
        })
    }
}

/// The parser's matches.
pub fn parse<'a>(alloc: Global, words: &'a [String]) -> Result<ArgMatches<'a>, Error> {
    let command = command(alloc)?;
    command.try_get_matches_from(words)
}

/// The command with its options, in the order of the help.
fn command<'a>(alloc: Global) -> Result<Command<'a>, AllocError> {
    let command = Command::new(alloc, "em_trace")
        .version(VERSION)
        .about(ABOUT)
        .after_help(LOGS);
    let command = with_frames(alloc, with_log(alloc, command)?)?;
    with_script(alloc, command)
}

/// Adds what is read of the log.
fn with_log<'a>(alloc: Global, command: Command<'a>) -> Result<Command<'a>, AllocError> {
    let from =
        "The first line of the log that is translated; those before it only say where the registers lie";
    let to = "The last line of the log that is translated";
    let base = "The address of the first register, hexadecimal; without it, the log says so";
    command
        .arg(form(alloc))?
        .arg(option(alloc, "from", "LINE", from))?
        .arg(option(alloc, "to", "LINE", to))?
        .arg(region(alloc))?
        .arg(option(alloc, "base", "ADDR", base))
}

/// `--form FORM`
fn form<'a>(alloc: Global) -> Arg<'a> {
    let help = "What the log looks like; without it, its first access says so";
    option(alloc, "form", "FORM", help).value_parser(FORMS)
}

/// `--region NAME`
fn region<'a>(alloc: Global) -> Arg<'a> {
    let help = "What QEMU calls the adapter's registers";
    option(alloc, "region", "NAME", help).default_value("e1000-mmio")
}

/// Adds where frames come from.
fn with_frames<'a>(alloc: Global, command: Command<'a>) -> Result<Command<'a>, AllocError> {
    let frames =
        "A capture, pcap or pcapng: its frames arrive by its times and the log's, but for the adapter's own";
    let mac =
        "The adapter's address, by which its own frames are known; without it, the log says so";
    command
        .arg(option(alloc, "frames", "PCAP", frames))?
        .arg(option(alloc, "mac", "MAC", mac))?
        .arg(at(alloc))
}

/// `--at LINE`
fn at<'a>(alloc: Global) -> Arg<'a> {
    let help = "The line of the log before which all frames arrive";
    option(alloc, "at", "LINE", help).value_parser(value_parser!(u64))
}

/// Adds what is written, and the log.
fn with_script<'a>(alloc: Global, command: Command<'a>) -> Result<Command<'a>, AllocError> {
    let skip =
        "Leave accesses of something else than the adapter's registers out, where they are comments otherwise";
    let memory =
        "How much guest memory the script is to have, with K, M or G; without it, what the log's rings want";
    let base = "The address of its first octet, hexadecimal; without it 0";
    let keep =
        "Write a line for each read of a poll; without it, one line stands for reads that give the same";
    command
        .arg(link(alloc))?
        .arg(option(alloc, "memory", "SIZE", memory))?
        .arg(option(alloc, "memory-base", "ADDR", base))?
        .arg(profile(alloc))?
        .arg(flag(alloc, "skip-others", skip))?
        .arg(flag(alloc, "keep-polls", keep))?
        .arg(log(alloc))
}

/// `--profile PROFILE`
fn profile<'a>(alloc: Global) -> Arg<'a> {
    let help =
        "The registers of the script's adapter: table, or adapter, which has what operating systems need";
    option(alloc, "profile", "PROFILE", help)
        .value_parser(PROFILES)
        .default_value("table")
}

/// `--link WAY`
fn link<'a>(alloc: Global) -> Arg<'a> {
    let help = "Whether the link is up where the log begins";
    option(alloc, "link", "WAY", help)
        .value_parser(LINKS)
        .default_value("up")
}

/// The log.
fn log<'a>(alloc: Global) -> Arg<'a> {
    Arg::new(alloc, "log")
        .value_name("LOG")
        .required(true)
        .help("The log, or - for standard input")
}

/// `--name`
fn flag<'a>(alloc: Global, name: &'a str, help: &'a str) -> Arg<'a> {
    Arg::new(alloc, name)
        .long(name)
        .action(ArgAction::SetTrue)
        .help(help)
}

/// `--name VALUE`
fn option<'a>(alloc: Global, name: &'a str, value: &'a str, help: &'a str) -> Arg<'a> {
    Arg::new(alloc, name)
        .long(name)
        .action(ArgAction::Set)
        .value_name(value)
        .help(help)
}

/// What the words ask for.
pub fn wanted<'a>(alloc: Global, matches: &ArgMatches<'a>) -> Result<Wanted<'a>, WordsRefused> {
    let base = match matches.get_str("base") {
        Some(text) => Some(address_of(text)?),
        None => None,
    };
    let address = match matches.get_str("mac") {
        Some(text) => Some(mac_of(text)?),
        None => None,
    };
    let memory = room_of(
        alloc,
        matches.get_str("memory"),
        matches.get_str("memory-base"),
    )?;
    let lines = lines_of(matches.get_str("from"), matches.get_str("to"))?;
    let at = matches.get_one::<u64>("at");
    if at.is_some_and(|line| !lines.has(line)) {
        return Err(WordsRefused::At);
    }
    Ok(Wanted {
        form: form_of(matches.get_str("form").unwrap_or("")),
        region: matches.get_str("region").unwrap_or(""),
        base,
        lines,
        address,
        at,
        memory,
        profile: profile_in(matches),
        link: match matches.get_str("link") {
            Some("down") => Link::Down,
            _ => Link::Up,
        },
        skips_others: matches.get_flag("skip-others"),
        keeps_polls: matches.get_flag("keep-polls"),
    })
}

/// The profile that `--profile` names, which takes no other name.
fn profile_in(matches: &ArgMatches<'_>) -> Profile {
    matches
        .get_str("profile")
        .and_then(|name| profile_of(name.as_bytes()))
        .unwrap_or(Profile::Table)
}

fn form_of(name: &str) -> Option<Form> {
    match name {
        "qemu" => Some(Form::Qemu),
        "mmiotrace" => Some(Form::Mmiotrace),
        "plain" => Some(Form::Plain),
        _ => None,
    }
}

/// The address that 1 to 16 hexadecimal digits write, with `0x` before them or without.
fn address_of(text: &str) -> Result<u64, WordsRefused> {
    let digits = match text.as_bytes() {
        [b'0', b'x' | b'X', digits @ ..] => digits,
        digits => digits,
    };
    let mut words = Words(digits);
    match words.hex_address() {
        Some(address) if words.is_over() => Ok(address),
        _ => Err(WordsRefused::Base),
    }
}

/// The memory that a size and an address say, if there is a size, and a machine can have it.
fn room_of(
    alloc: Global,
    size: Option<&str>,
    base: Option<&str>,
) -> Result<Option<Room>, WordsRefused> {
    let Some(size) = size else {
        return if base.is_some() {
            Err(WordsRefused::Memory)
        } else {
            Ok(None)
        };
    };
    let size = size_of(size.as_bytes()).ok_or(WordsRefused::Memory)?;
    let base = match base {
        Some(text) => address_of(text).map_err(|_| WordsRefused::Memory)?,
        None => 0,
    };
    let room = Room { base, size };
    // (where memory is refused to it, it is made by the program that plays the script)
    match GuestMemory::at(alloc, base, size) {
        Err(MemRefusal::Size) => Err(WordsRefused::Room(room)),
        Ok(_) | Err(MemRefusal::Memory) => Ok(Some(room)),
    }
}

/// The lines from one to another, as `--from` and `--to` say.
fn lines_of(from: Option<&str>, to: Option<&str>) -> Result<Lines, WordsRefused> {
    let from = match from {
        Some(text) => line_of(text)?,
        None => Lines::ALL.from,
    };
    let to = match to {
        Some(text) => line_of(text)?,
        None => Lines::ALL.to,
    };
    Lines::between(from, to).ok_or(WordsRefused::Lines)
}

fn line_of(text: &str) -> Result<u64, WordsRefused> {
    text.parse::<u64>().map_err(|_| WordsRefused::Lines)
}

/// The address that 12 hexadecimal digits write, with a colon between each two of them or without.
fn mac_of(text: &str) -> Result<Address, WordsRefused> {
    match text.as_bytes() {
        [
            a,
            b,
            b':',
            c,
            d,
            b':',
            e,
            f,
            b':',
            g,
            h,
            b':',
            i,
            j,
            b':',
            k,
            l,
        ] => { address_by([*a, *b, *c, *d, *e, *f, *g, *h, *i, *j, *k, *l]) }
        [a, b, c, d, e, f, g, h, i, j, k, l] => {
            address_by([*a, *b, *c, *d, *e, *f, *g, *h, *i, *j, *k, *l])
        }
        _ => Err(WordsRefused::Mac),
    }
}

/// The address that these digits write.
fn address_by(digits: [u8; 12]) -> Result<Address, WordsRefused> {
    let mut words = Words(digits.as_slice());
    match words.hex_address() {
        Some(address) if words.is_over() => {
            let [_, _, a, b, c, d, e, f] = address.to_be_bytes();
            Ok([a, b, c, d, e, f])
        }
        _ => Err(WordsRefused::Mac),
    }
}
