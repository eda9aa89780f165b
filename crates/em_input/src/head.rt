//! What a script says that its machine is made of, and how a run that was kept ends where its process died.
ghost use Rattle.std.specs.Prelude.{◌≤◌, length};

use crate::numbers::{address_of, number_of, profile_of, size_of};
use em_regs::Profile;
use em_text::{Words, is_name, next_line, octets_into};
use std::alloc::{AllocError, Global};

/// How many options a head has at most.
const OPTIONS: usize = 5;

/// What a machine is made of, as far as the first line of a script says it by the words of em_debug's command line:
/// `# em_debug --memory 128M --base 80000000`.
#[derive(Clone, Copy)]
pub struct Head {
    pub memory: Option<u64>,
    pub base: Option<u64>,
    pub budget: Option<u64>,
    pub mac: Option<[u8; 6]>,
    pub profile: Option<Profile>,
    /// Whether the next line gives the machine an EEPROM with words of its own.
    pub has_eeprom: bool,
}

impl Head {
    const EMPTY: Head = Head {
        memory: None,
        base: None,
        budget: None,
        mac: None,
        profile: None,
        has_eeprom: false,
    };

    /// Whether a run that is kept begins so: it says all that the machine was made of.
    pub fn is_of_kept_run(&self) -> bool {
        self.memory.is_some() && self.budget.is_some() && self.mac.is_some()
    }
}

/// The head of a script, if it has one. Of a run that was kept a last line without a newline is taken off the script: its
/// process died while that was written.
pub fn take_head(alloc: Global, script: &mut Vec<u8>) -> Result<Option<Head>, AllocError> {
    let head = head_of(alloc, script.as_slice())?;
    if let Some(head) = head {
        if head.is_of_kept_run() {
            let whole = whole_len(script.as_slice());
            script.truncate(whole);
        }
    }
    Ok(head)
}

/// The head of a script, if it has one.
fn head_of(alloc: Global, script: &[u8]) -> Result<Option<Head>, AllocError> {
    if script.is_empty() {
        return Ok(None);
    }
    let (line, behind) = next_line(script);
    let head = head_in(alloc, line)?;
    match head {
        Some(head) => Ok(Some(Head {
            has_eeprom: first_line(behind).starts_with(b"# eeprom "),
            ..head
        })),
        None => Ok(None),
    }
}

/// The first line of a text; of none no octet.
fn first_line(text: &[u8]) -> &[u8] {
    if text.is_empty() {
        return text;
    }
    let (line, _) = next_line(text);
    line
}

/// The head that a line is, if it is one.
fn head_in(alloc: Global, line: &[u8]) -> Result<Option<Head>, AllocError> {
    let mut words = Words(line);
    if !is_next(&mut words, b"#") || !is_next(&mut words, b"em_debug") {
        return Ok(None);
    }
    let mut head = Head::EMPTY;
    for _ in 0..OPTIONS {
        if !words.is_over() && !take_option(alloc, &mut head, &mut words)? {
            return Ok(None);
        }
    }
    if words.is_over() {
        Ok(Some(head))
    } else {
        Ok(None)
    }
}

/// Takes an option and its value, and gives whether they are one that did not stand before.
fn take_option(alloc: Global, head: &mut Head, words: &mut Words<'_>) -> Result<bool, AllocError> {
    let Some(name) = words.next() else {
        return Ok(false);
    };
    let Some(value) = words.next() else {
        return Ok(false);
    };
    if is_name(name, b"--mac") {
        let mac = mac_of(alloc, value)?;
        let is_new = head.mac.is_none() && mac.is_some();
        head.mac = mac;
        return Ok(is_new);
    }
    if is_name(name, b"--profile") {
        let profile = profile_of(value);
        let is_new = head.profile.is_none() && profile.is_some();
        head.profile = profile;
        return Ok(is_new);
    }
    if is_name(name, b"--memory") {
        return Ok(put(&mut head.memory, size_of(value)));
    }
    if is_name(name, b"--base") {
        return Ok(put(&mut head.base, address_of(value)));
    }
    if is_name(name, b"--budget") {
        return Ok(put(&mut head.budget, number_of(value)));
    }
    Ok(false)
}

/// Puts a number where none stood before, and gives whether there is one.
fn put(place: &mut Option<u64>, number: Option<u64>) -> bool {
    let is_new = place.is_none() && number.is_some();
    *place = number;
    is_new
}

fn is_next<const N: usize>(words: &mut Words<'_>, name: &[u8; N]) -> bool {
    match words.next() {
        Some(word) => is_name(word, name),
        None => false,
    }
}

/// The Ethernet address that 12 hexadecimal digits write.
fn mac_of(alloc: Global, word: &[u8]) -> Result<Option<[u8; 6]>, AllocError> {
    let mut octets = Vec::new(alloc);
    if !octets_into(&mut octets, word)? {
        return Ok(None);
    }
    match octets.as_slice() {
        [a, b, c, d, e, f] => Ok(Some([*a, *b, *c, *d, *e, *f])),
        _ => Ok(None),
    }
}

/// How many octets a text has up to its last newline.
fn whole_len(script: &[u8]) -> usize
    ensures { result ≤ length script.now }
{
    let mut whole = script.len();
    while whole > 0 && script[whole - 1] != b'\n' {
        whole -= 1;
    }
    whole
}
