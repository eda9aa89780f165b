//! The numbers of a machine, read.

use crate::form::{HALF_RANGE, SINGLE_NUMBERS};
use crate::reader::Reader;
use crate::refusal::StoredRefusal;

/// What is read of a machine before its lists.
#[derive(Drop)]
pub(crate) struct Numbers {
    pub(crate) singles: [u32; SINGLE_NUMBERS],
    pub(crate) phy: [u16; em_phy::WORDS],
    pub(crate) eeprom: [u16; em_eeprom::WORDS],
    pub(crate) registers: [u32; em_regs::STORED_WORDS],
    pub(crate) latches: [u32; em_latch::WORDS],
}

/// Reads them.
pub(crate) fn read_numbers(reader: &mut Reader<'_>) -> Result<Numbers, StoredRefusal> {
    let singles = reader.words()?;
    let phy = reader.words()?;
    let eeprom = reader.words()?;
    let registers = reader.words()?;
    let latches = reader.words()?;
    Ok(Numbers {
        singles,
        phy: halves(&phy),
        eeprom: halves(&eeprom),
        registers,
        latches,
    })
}

/// The low halves of numbers.
fn halves<const N: usize>(words: &[u32; N]) -> [u16; N] {
    let mut halves = [0; N];
    for k in 0..N {
        halves[k] = (words[k] % HALF_RANGE) as u16;
    }
    halves
}
