//! The address filter: one function for each case in which it accepts a destination.
ghost use Rattle.std.specs.Prelude.{◌≡◌, ◌<◌, ◌==◌};
ghost use Rattle.std.specs.List.{list_any, range_with_len};
ghost use Rattle.em_address.specs.Kind.{destination};
ghost use Rattle.em_filter.specs.Address.{has_source, is_exact, is_inexact, is_source_at};
ghost use Rattle.em_filter.specs.Address.{accepts, entry, has_hash, hash_of, is_entry_at, is_in_table};
ghost use Rattle.em_filter.specs.Address.{passes_bam, passes_hash, passes_mpe, passes_upe};

use crate::bits::{self, WORD_BITS};
use em_address::{Kind, kind_of};
use em_regs::{Profile, RegFile};

/// How many receive addresses there are.
const ENTRIES: u8 = 16;

/// How many hashes there are.
const HASHES: u16 = 4096;

/// Whether the filter accepts a destination.
#[tactic(auto, unfolding(crate::specs::Address::accepts))]
pub(crate) fn accepts(regs: &RegFile, address: &[u8; 6]) -> bool
    ensures { result ≡ accepts regs.now (destination address.now) }
{
    let kind = kind_of(address);
    // the cases of one bit come first, since the table has 16 entries
    passes_upe(regs, kind)
        || passes_mpe(regs, kind)
        || passes_bam(regs, kind)
        || is_in_table(regs, address)
        || passes_hash(regs, kind, address)
}

/// An entry of the table of receive addresses is the address.
fn is_in_table(regs: &RegFile, address: &[u8; 6]) -> bool
    ensures { result ≡ is_in_table regs.now (destination address.now) }
{
    (0..ENTRIES).any(|index| is_entry_at(regs, address, index))
}

/// An entry of the table of receive addresses is of sources, and is the address.
#[tactic(auto, unfolding(crate::specs::Address::has_source))]
pub(crate) fn has_source(profile: Profile, regs: &RegFile, address: &[u8; 6]) -> bool
    ensures { result ≡ has_source profile regs.now (destination address.now) }
{
    bits::is_second(profile) && is_a_source(regs, address)
}

/// Whether an exact filter accepts a frame of this destination and this source.
fn is_exact(profile: Profile, regs: &RegFile, to: &[u8; 6], from: &[u8; 6]) -> bool
    ensures { result ≡ is_exact profile regs.now (destination to.now) (destination from.now) }
{
    passes_bam(regs, kind_of(to)) || is_in_table(regs, to) || has_source(profile, regs, from)
}

/// Whether no exact filter accepts a frame of this destination and this source, so that PIF is set (manual, chapter on
/// packet reception: receive descriptor status): in the second profile alone.
///
/// Exact are the entries of RAL and RAH, and BAM for the broadcast address; UPE, MPE and the multicast table are not.
#[tactic(auto, unfolding(crate::specs::Address::is_inexact))]
pub fn is_inexact(profile: Profile, regs: &RegFile, to: &[u8; 6], from: &[u8; 6]) -> bool
    ensures { result ≡ is_inexact profile regs.now (destination to.now) (destination from.now) }
{
    bits::is_second(profile) && !is_exact(profile, regs, to, from)
}

/// An entry of sources is the address.
fn is_a_source(regs: &RegFile, address: &[u8; 6]) -> bool
    ensures { result ≡ list_any (is_source_at regs.now (destination address.now)) (range_with_len 0 16) }
{
    (0..ENTRIES).any(|index| is_source_at(regs, address, index))
}

/// One entry is of sources, and is the address.
fn is_source_at(regs: &RegFile, address: &[u8; 6], index: u8) -> bool
    requires { index < ENTRIES }
    ensures { result ≡ is_source_at regs.now (destination address.now) index }
{
    bits::is_source(regs, index) && is_entry(regs, address, index)
}

/// One entry is valid, and is the address.
fn is_entry_at(regs: &RegFile, address: &[u8; 6], index: u8) -> bool
    requires { index < ENTRIES }
    ensures { result ≡ is_entry_at regs.now (destination address.now) index }
{
    bits::is_valid(regs, index) && is_entry(regs, address, index)
}

/// One entry has the octets of the address.
#[tactic(auto, unfolding(em_address::specs::Kind::destination))]
fn is_entry(regs: &RegFile, address: &[u8; 6], index: u8) -> bool
    requires { index < ENTRIES }
    ensures { result ≡ (entry regs.now index == destination address.now) }
{
    let [a, b, c, d, e, f] = *address;
    let (low, high) = bits::entry(regs, index);
    low == u32::from_le_bytes([a, b, c, d]) && high == u32::from(u16::from_le_bytes([e, f]))
}

/// A unicast address passes with UPE.
fn passes_upe(regs: &RegFile, kind: Kind) -> bool
    ensures { result ≡ passes_upe regs.now kind }
{
    matches!(kind, Kind::Unicast) && bits::upe(regs)
}

/// A group address, broadcast among them, passes with MPE.
fn passes_mpe(regs: &RegFile, kind: Kind) -> bool
    ensures { result ≡ passes_mpe regs.now kind }
{
    kind.is_group() && bits::mpe(regs)
}

/// A broadcast address passes with BAM.
fn passes_bam(regs: &RegFile, kind: Kind) -> bool
    ensures { result ≡ passes_bam regs.now kind }
{
    matches!(kind, Kind::Broadcast) && bits::bam(regs)
}

/// A group address, broadcast among them, passes where the bit of its hash is set.
fn passes_hash(regs: &RegFile, kind: Kind, address: &[u8; 6]) -> bool
    ensures { result ≡ passes_hash regs.now kind (destination address.now) }
{
    kind.is_group() && has_hash(regs, hash_of(regs, address))
}

/// The bit of a hash in the multicast table is set.
fn has_hash(regs: &RegFile, hash: u16) -> bool
    requires { hash < HASHES }
    ensures { result ≡ has_hash regs.now hash }
{
    let word = bits::mta(regs, (hash / WORD_BITS) as u8);
    bits::is_set(word, hash % WORD_BITS)
}

/// The hash of an address: the 12 bits of octets 4 and 5 that MO names.
#[tactic(auto, unfolding(em_address::specs::Kind::destination))]
pub fn hash_of(regs: &RegFile, address: &[u8; 6]) -> u16
    ensures value { result ≡ hash_of regs.now (destination address.now) }
    ensures few { result < HASHES }
{
    let high = u16::from_le_bytes([address[4], address[5]]);
    let hash = match bits::mo(regs) {
        0 => high >> 4,
        1 => high >> 3,
        2 => high >> 2,
        _ => high,
    };
    hash % HASHES
}
