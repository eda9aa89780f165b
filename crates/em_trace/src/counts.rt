//! How often each register was accessed that the model lacks.

use crate::missing::missing_name;
use crate::text::plural;
use anyhow::Result;
use std::alloc::{AllocError, Global};
use std::io::Write;

/// How many octets a register has.
const WORD: u32 = 4;

/// How many words the registers of an 82540EM take, with what lies between them.
const WORDS: usize = 0x8000;

/// How often each word was accessed.
#[derive(Drop)]
pub struct Counts {
    words: Vec<u64>,
}

/// Words with one name that were accessed.
#[derive(Clone, Copy)]
struct Named {
    offset: u32,
    name: Option<&'static str>,
    count: u64,
}

impl Counts {
    /// No word was accessed yet.
    pub fn new(alloc: Global) -> Result<Counts, AllocError> {
        let words = vec![in alloc; 0; WORDS]?;
        Ok(Counts { words })
    }

    /// Counts an access of the word at an offset.
    pub fn add(&mut self, offset: u32) {
        if let Some(count) = self.words.get_mut((offset / WORD) as usize) {
            *count = count.saturating_add(1);
        }
    }

    /// Writes how often each was accessed, if any was:
    /// `41 accesses of 2 registers that the model lacks: EECD 20, MDIC 21`.
    pub fn write<W: Write>(&self, alloc: Global, out: &mut W) -> Result<()> {
        let named = self.named(alloc)?;
        if named.is_empty() {
            return Ok(());
        }
        let mut total = 0u64;
        for one in named.iter() {
            total = total.saturating_add(one.count);
        }
        let registers = named.len() as u64;
        let of = plural(total, "access", "accesses");
        let that = plural(registers, "register", "registers");
        write!(
            out,
            "{total} {of} of {registers} {that} that the model lacks"
        )?;
        let mut before = ": ";
        for one in named.iter() {
            match one.name {
                Some(name) => write!(out, "{before}{name} {}", one.count)?,
                None => write!(out, "{before}{:05X} {}", one.offset, one.count)?,
            }
            before = ", ";
        }
        writeln!(out, "")?;
        Ok(())
    }

    /// The words that were accessed, from the lowest offset on; those of an array together.
    fn named(&self, alloc: Global) -> Result<Vec<Named>, AllocError> {
        let mut found: Vec<Named> = Vec::new(alloc);
        let mut offset = 0u32;
        for count in self.words.iter() {
            if *count > 0 {
                add_named(&mut found, offset, *count)?;
            }
            offset = offset.wrapping_add(WORD);
        }
        Ok(found)
    }
}

/// Adds a word to those that were found so far.
fn add_named(found: &mut Vec<Named>, offset: u32, count: u64) -> Result<(), AllocError> {
    let name = missing_name(offset);
    if let Some(last) = found.last_mut() {
        if name.is_some() && last.name == name {
            last.count = last.count.saturating_add(count);
            return Ok(());
        }
    }
    found.push(Named {
        offset,
        name,
        count,
    })?;
    Ok(())
}
