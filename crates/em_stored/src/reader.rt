//! Numbers and octets taken off the front of others.
ghost use Rattle.std.specs.Prelude.{◌≡◌, IfOk, length};

use crate::form::{NUMBER, WORD};
use crate::refusal::StoredRefusal;
use byteorder::{ByteOrder, LittleEndian};

/// Octets that are read from the front on.
#[derive(Drop)]
pub(crate) struct Reader<'a> {
    pub(crate) left: &'a [u8],
}

impl<'a> Reader<'a> {
    /// So many octets.
    pub(crate) fn octets(&mut self, count: u64) -> Result<&'a [u8], StoredRefusal>
        ensures { IfOk result (λ found. length found.now ≡ count) }
    {
        if count > self.left.len() as u64 {
            return Err(StoredRefusal::Value);
        }
        let (found, rest) = self.left.split_at(count as usize);
        self.left = rest;
        Ok(found)
    }

    /// A number in four octets.
    pub(crate) fn word(&mut self) -> Result<u32, StoredRefusal> {
        let found = self.octets(WORD as u64)?;
        Ok(LittleEndian::read_u32(found))
    }

    /// A number in eight octets.
    pub(crate) fn number(&mut self) -> Result<u64, StoredRefusal> {
        let found = self.octets(NUMBER as u64)?;
        Ok(LittleEndian::read_u64(found))
    }

    /// Numbers in four octets each.
    pub(crate) fn words<const N: usize>(&mut self) -> Result<[u32; N], StoredRefusal> {
        let mut values = [0; N];
        for value in values.iter_mut() {
            *value = self.word()?;
        }
        Ok(values)
    }

    /// How many things follow: no more than octets do.
    pub(crate) fn count(&mut self) -> Result<u64, StoredRefusal> {
        let most = self.left.len() as u64;
        let count = self.number()?;
        if count > most {
            return Err(StoredRefusal::Value);
        }
        Ok(count)
    }

    /// Octets behind their number.
    pub(crate) fn counted(&mut self) -> Result<&'a [u8], StoredRefusal> {
        let count = self.count()?;
        self.octets(count)
    }
}
