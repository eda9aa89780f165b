//! The command, and what its parser makes of the words of a command line.
ghost use Rattle.std.specs.Prelude.{◌≡◌, ◌↔◌, [], Ok, Some, IfOk, IfErr, OnOk, IfSome, IsNone, IsSome, IsSomeAnd};
ghost use Rattle.std.specs.Prelude.{List, map, string_bytes, codes, option_map, true, false, length, ◌≤◌};
ghost use Rattle.hex.specs.Hex.{decode_of};
ghost use Rattle.clap.specs.Words.{Text, app_of, rule_of, with_rule, found_of, rows_of, first_of, fault_of, FailsBy};
ghost use Rattle.em_journal.specs.Settings.{IsDefault};
ghost use Rattle.em_options.specs.Options.{named, em_bench, number_rule, option_rule, script_rule, said, settings_of};
ghost use Rattle.em_options.specs.Options.{is_number, is_option, HasMatches, IsMac, IsNoMac, IsNumberText};
ghost use Rattle.em_options.specs.Options.{IsRefusedFor, SaysNumber, SaysOctets};

use crate::help;
use crate::settings::{Options, OptionsRefused};
use clap::{Arg, ArgAction, ArgMatches, Command, Error, value_parser};
use hex::FromHex;
use std::alloc::{AllocError, Global};

/// Reads the words of a command line, the program's name among them. What they do not say, they
/// leave at its default.
///
/// The parser refuses words that are none of the command's, numbers that 64 bits don't hold, and an
/// option that is there twice; and it takes memory. That the size and the budget are allowed is not
/// tested here.
pub fn options<'a>(alloc: Global, words: &'a [String]) -> Result<Options<'a>, OptionsRefused>
    ensures memory { IfOk result (λ options.
        SaysNumber (said (codes "memory") (map string_bytes words.entry.now)) options.memory) }
    ensures budget { IfOk result (λ options.
        SaysNumber (said (codes "budget") (map string_bytes words.entry.now)) options.budget) }
    ensures mac { IfOk result (λ options.
        SaysOctets (said (codes "mac") (map string_bytes words.entry.now)) options.mac) }
    ensures script { IfOk result (λ options. option_map (λ text. text.now) options.script
        ≡ said (codes "script") (map string_bytes words.entry.now)) }
    // Without words the parser's defaults are those of `Settings`.
    ensures usual { length words.entry.now ≤ 1 → IfOk result (λ options. IsDefault (settings_of options)) }
    ensures taken { OnOk result (fault_of em_bench (map string_bytes words.entry.now) ≡ []) }
    ensures err { IfErr result (IsRefusedFor (map string_bytes words.entry.now)) }
{
    let matches = match parse(alloc, words) {
        Ok(matches) => matches,
        Err(error) => return Err(OptionsRefused::Parser(error)),
    };
    let Some(mac) = mac_of(&matches, "mac") else {
        return Err(OptionsRefused::Mac);
    };
    Ok(Options {
        memory: number_of(&matches, "memory"),
        budget: number_of(&matches, "budget"),
        mac,
        script: matches.get_str("script"),
    })
}

/// The parser's matches. Each option has a value, and what has to be a number is one.
fn parse<'a>(alloc: Global, words: &'a [String]) -> Result<ArgMatches<'a>, Error>
    ensures matches { IfOk result (HasMatches (map string_bytes words.entry.now)) }
    ensures options { IfOk result (λ m. (name : Text) → is_option name ≡ true
        → IsSome (first_of name (rows_of (found_of m)))) }
    ensures numbers { IfOk result (λ m. (name : Text) → is_number name ≡ true
        → IsSomeAnd (first_of name (rows_of (found_of m))) IsNumberText) }
    ensures kinds { FailsBy (fault_of em_bench (map string_bytes words.entry.now)) result }
{
    let command = command(alloc)?;
    command.try_get_matches_from(words)
}

/// The command with its options, in the order of the help.
fn command<'a>(alloc: Global) -> Result<Command<'a>, AllocError>
    ensures { IfOk result (λ command. app_of command ≡ em_bench) }
{
    let command = bare(alloc);
    let memory = "Octets of guest memory: a multiple of 4096 up to 16777216";
    let command = with_arg(command, number(alloc, "memory", "65536", memory))?;
    let budget = "Octets that the journal's records may cost together: from 65536 to 16777216";
    let command = with_arg(command, number(alloc, "budget", "1048576", budget))?;
    let mac = "The adapter's Ethernet address, octet 0 first";
    let command = with_arg(command, option(alloc, "mac", "525400123456", "HEX12", mac))?;
    let command = with_arg(command, script(alloc))?;
    Ok(command)
}

/// The command without its options.
fn bare<'a>(alloc: Global) -> Command<'a>
    ensures { app_of result ≡ named }
{
    Command::new(alloc, "em_bench")
        .version(help::VERSION)
        .about(help::ABOUT)
        .after_help(help::LANGUAGE)
}

/// The command with one more argument.
fn with_arg<'a>(command: Command<'a>, arg: Arg<'a>) -> Result<Command<'a>, AllocError>
    requires { arg.global ≡ false }
    ensures { IfOk result (λ more. app_of more ≡ with_rule (app_of command.entry) (rule_of arg.entry)) }
{
    command.arg(arg)
}

/// `--name VALUE`, with a default.
fn option<'a>(
    alloc: Global,
    name: &'a str,
    default: &'a str,
    value: &'a str,
    help: &'a str,
) -> Arg<'a>
    ensures rule { rule_of result ≡ option_rule name.entry.now default.entry.now }
    ensures own { result.global ≡ false }
{
    Arg::new(alloc, name)
        .long(name)
        .action(ArgAction::Set)
        .value_name(value)
        .default_value(default)
        .help(help)
}

/// `--name N`, with a default: a number that 64 bits hold.
fn number<'a>(alloc: Global, name: &'a str, default: &'a str, help: &'a str) -> Arg<'a>
    ensures rule { rule_of result ≡ number_rule name.entry.now default.entry.now }
    ensures own { result.global ≡ false }
{
    option(alloc, name, default, "N", help).value_parser(value_parser!(u64))
}

/// The script's file, which may be left out.
fn script<'a>(alloc: Global) -> Arg<'a>
    ensures rule { rule_of result ≡ script_rule }
    ensures own { result.global ≡ false }
{
    Arg::new(alloc, "script").value_name("SCRIPT").help(
        "The script's file; without one the script is read from standard input",
    )
}

/// The text of an option that has one.
fn value_of<'a>(matches: &ArgMatches<'a>, name: &str) -> &'a str
    requires { IsSome (first_of name.now (rows_of (found_of matches.now))) }
    ensures { first_of name.now (rows_of (found_of matches.now)) ≡ Some result.now }
{
    match matches.get_str(name) {
        Some(text) => text,
        None => unreachable!(),
    }
}

/// The number that the words give an option.
fn number_of(matches: &ArgMatches<'_>, name: &str) -> u64
    requires { IsSomeAnd (first_of name.now (rows_of (found_of matches.now))) IsNumberText }
    ensures { (words : List Text) → HasMatches words matches.now → SaysNumber (said name.now words) result }
{
    match value_of(matches, name).parse() {
        Ok(number) => number,
        Err(_) => unreachable!(),
    }
}

/// The address that the words give an option, if they are 12 hexadecimal digits.
fn mac_of(matches: &ArgMatches<'_>, name: &str) -> Option<[u8; 6]>
    requires { IsSome (first_of name.now (rows_of (found_of matches.now))) }
    ensures value { IfSome result (λ mac. (words : List Text) → HasMatches words matches.now
        → SaysOctets (said name.now words) mac) }
    ensures none { IsNone result → (words : List Text) → HasMatches words matches.now
        → IfSome (said name.now words) IsNoMac }
{
    address_of(value_of(matches, name))
}

/// The address that 12 hexadecimal digits spell.
fn address_of(text: &str) -> Option<[u8; 6]>
    ensures value { IfSome result (λ mac. decode_of text.now ≡ Ok mac) }
    ensures found { IsSome result ↔ IsMac text.now }
{
    <[u8; 6] as FromHex>::from_hex(text).ok()
}
