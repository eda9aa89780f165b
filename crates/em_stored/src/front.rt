//! What octets are refused for before anything is read of them.
ghost use Rattle.std.specs.Prelude.{◌≡◌, ◌+◌, ◌≤◌, IfNone, IsTrue, length};
ghost use Rattle.em_stored.specs.Tests.{fault_of, is_measured, is_of_version, is_opened, is_summed, number_at, word_at};

use crate::form::{BACK, FRONT, MAGIC, NUMBER, VERSION, WORD};
use crate::refusal::StoredRefusal;
use byteorder::{ByteOrder, LittleEndian};
use em_crc::crc32;

/// The first test that fails. Where none does, front and back are there.
#[tactic(auto, unfolding(crate::specs::Tests::fault_of))]
pub(crate) fn fault_of(octets: &[u8]) -> Option<StoredRefusal>
    ensures fault { result ≡ fault_of octets.now }
    ensures long { IfNone result (24 ≤ length octets.now) }
{
    if !is_opened(octets) {
        return Some(StoredRefusal::Magic);
    }
    if !is_of_version(octets) {
        return Some(StoredRefusal::Version);
    }
    if !is_measured(octets) {
        return Some(StoredRefusal::Length);
    }
    if !is_summed(octets) {
        return Some(StoredRefusal::Sum);
    }
    None
}

/// Whether they begin with BUNJELAV.
fn is_opened(octets: &[u8]) -> bool
    ensures { result ≡ is_opened octets.now }
{
    octets.len() >= NUMBER && number_at(octets, 0) == MAGIC
}

/// Whether the version stands behind that.
fn is_of_version(octets: &[u8]) -> bool
    ensures { result ≡ is_of_version octets.now }
{
    octets.len() >= FRONT && word_at(octets, NUMBER) == VERSION
}

/// Whether they are as many as they say.
fn is_measured(octets: &[u8]) -> bool
    ensures measured { result ≡ is_measured octets.now }
    ensures long { IsTrue result → 24 ≤ length octets.now }
{
    octets.len() >= FRONT + BACK && number_at(octets, octets.len() - BACK) == octets.len() as u64
}

/// Whether the last four are the check sum of the others.
fn is_summed(octets: &[u8]) -> bool
    requires { 4 ≤ length octets.now }
    ensures { result ≡ is_summed octets.now }
{
    let end = octets.len() - WORD;
    word_at(octets, end) == crc32(&octets[..end])
}

/// The number in the four octets from a place on.
#[tactic(auto, unfolding(crate::specs::Tests::word_at))]
fn word_at(octets: &[u8], at: usize) -> u32
    requires { at + 4 ≤ length octets.now }
    ensures { result ≡ word_at at octets.now }
{
    LittleEndian::read_u32(&octets[at..])
}

/// The number in the eight octets from a place on.
#[tactic(auto, unfolding(crate::specs::Tests::number_at))]
fn number_at(octets: &[u8], at: usize) -> u64
    requires { at + 8 ≤ length octets.now }
    ensures { result ≡ number_at at octets.now }
{
    LittleEndian::read_u64(&octets[at..])
}
