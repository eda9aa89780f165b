//! Old octets of many records, in one ring: a record needs no memory of its own.
ghost use Rattle.std.specs.Prelude.{◌≡◌, ◌++◌, ◌-◌, ◌<◌, ◌≤◌, [], length, replicate, take, IfOk, IsOk, OnErr, OnOk};
ghost use Rattle.em_mem.specs.OldOctets.{IsLonger, forward_by, given_up, saved, seen_from};

use crate::ring::{pieces, put_front, put_octets};
use std::alloc::{AllocError, Global};
use std::marker::Model;

/// The most octets that there can be room for: more than the greatest budget of a journal, and so few that a place has
/// 25 bits.
pub const MOST_ROOM: usize = 0x1FF_FFFF;

/// Old octets, those of the newest record first. There is room for so many; of more the oldest go.
#[derive(Drop)]
pub struct OldOctets {
    alloc: Global,
    ring: Vec<u8>,
    // where those of the newest record begin
    top: usize,
}

impl Model for OldOctets {
    ghost use Rattle.std.specs.Prelude.{◌≤◌, length};
    ghost use Rattle.em_mem.specs.declared.old_octets.TheConstants.{MOST_ROOM};
    ghost use Rattle.em_mem.specs.Ring.{turn};
    ghost use Rattle.em_mem.specs.OldOctets.{OldOctets};

    ghost Value = { OldOctets };

    ghost view = { λ o. record { top = o.top; octets = turn o.top o.ring.items } };

    ghost invariant = { λ o. (o.top ≤ length o.ring.items) × (length o.ring.items ≤ MOST_ROOM) };
}

impl OldOctets {
    /// No room yet. It takes no memory.
    pub fn none(alloc: Global) -> OldOctets
        ensures { result ≡ record { top = 0; octets = [] } }
    {
        OldOctets {
            alloc,
            ring: Vec::new(alloc),
            top: 0,
        }
    }

    /// Room for so many octets, all 0. What is saved first goes to the ring's end, so that its beginning is reached last.
    pub fn with_room(alloc: Global, room: usize) -> Result<OldOctets, AllocError>
        requires some { 0 < room }
        requires most { room ≤ MOST_ROOM }
        ensures { IfOk result (λ old. old ≡ record { top = room - 1; octets = replicate room 0 }) }
    {
        let ring = vec![in alloc; 0; room]?;
        Ok(OldOctets {
            alloc,
            ring,
            top: room - 1,
        })
    }

    /// The same octets at the same places, in a ring of its own.
    pub fn copy(&self) -> Result<OldOctets, AllocError>
        ensures { IfOk result (λ copy. copy ≡ self.now) }
    {
        let ring = Vec::from_slice(self.alloc, self.ring.as_slice())?;
        let top = self.top;
        Ok(OldOctets {
            alloc: self.alloc,
            ring,
            top,
        })
    }

    /// Goes over to a longer ring, whose room lies behind this one's end. From the newest octets on, those that lie
    /// before that end stay as they are.
    pub fn move_to(&mut self, longer: Vec<u8>)
        requires longer { length self.old.octets ≤ length longer.items }
        requires most { length longer.items ≤ MOST_ROOM }
        ensures { IsLonger self.old self.new (length longer.items) }
    {
        let mut longer = longer;
        put_front(longer.as_mut_slice(), self.ring.as_slice());
        self.ring = longer;
    }

    /// Sees that there is room for so many octets: where there is not, it is made, and what was saved goes. So a ring
    /// that has the room stays as it is, and octets of one record's own get theirs when it is known how many they are.
    #[inline(always)]
    pub fn make_room(&mut self, room: usize) -> Result<(), AllocError>
        requires { room ≤ MOST_ROOM }
        ensures room { OnOk result (room ≤ length self.new.octets) }
        ensures ready { room ≤ length self.old.octets → IsOk result × (self.new ≡ self.old) }
        ensures fresh { length self.old.octets < room
            → OnOk result (self.new ≡ record { top = 0; octets = replicate room 0 }) }
        ensures same { OnErr result (self.new ≡ self.old) }
    {
        if room <= self.ring.len() {
            return Ok(());
        }
        self.ring = vec![in self.alloc; 0; room]?;
        self.top = 0;
        Ok(())
    }

    /// How many octets there is room for.
    #[inline(always)]
    pub fn room(&self) -> usize
        ensures room { result ≡ length self.now.octets }
        ensures most { result ≤ MOST_ROOM }
    {
        self.ring.len()
    }

    /// Saves the octets of a record, which is then the newest. The oldest octets go, for which no room is left.
    #[inline(always)]
    pub fn save(&mut self, octets: &[u8])
        requires { length octets.now ≤ length self.old.octets }
        ensures { self.new ≡ saved octets.now self.old }
    {
        let len = octets.len();
        self.top = if len <= self.top {
            self.top - len
        } else {
            self.top + self.ring.len() - len
        };
        put_octets(&mut self.ring, self.top, octets);
    }

    /// The octets from those of the newest record on.
    #[inline(always)]
    pub fn newest(&self) -> Saved<'_>
        ensures { result ≡ self.now }
    {
        Saved {
            ring: self.ring.as_slice(),
            top: self.top,
        }
    }

    /// The place where those of the newest record begin.
    #[inline(always)]
    pub fn place(&self) -> usize
        ensures place { result ≡ self.now.top }
        ensures most { result ≤ MOST_ROOM }
    {
        self.top
    }

    /// The octets from a place on, where those of an older record begin.
    #[inline(always)]
    pub fn from(&self, place: usize) -> Saved<'_>
        requires { place ≤ length self.now.octets }
        ensures seen { result ≡ seen_from place self.now }
        ensures room { length result.octets ≡ length self.now.octets }
    {
        Saved {
            ring: self.ring.as_slice(),
            top: place,
        }
    }

    /// Gives the first `len` octets up: those of an older record are the first from now on.
    #[inline(always)]
    pub fn give_up(&mut self, len: usize)
        requires { len ≤ length self.old.octets }
        ensures given { self.new ≡ given_up len self.old }
        ensures room { length self.new.octets ≡ length self.old.octets }
    {
        self.top = forward(self.ring.len(), self.top, len);
    }
}

/// Old octets as they are seen from a place on.
#[derive(Drop)]
pub struct Saved<'a> {
    ring: &'a [u8],
    top: usize,
}

impl<'a> Model for Saved<'a> {
    ghost use Rattle.std.specs.Prelude.{◌≤◌, length};
    ghost use Rattle.em_mem.specs.declared.old_octets.TheConstants.{MOST_ROOM};
    ghost use Rattle.em_mem.specs.Ring.{turn};
    ghost use Rattle.em_mem.specs.OldOctets.{OldOctets};

    ghost Value = { OldOctets };

    ghost view = { λ o. record { top = o.top; octets = turn o.top o.ring.now } };

    ghost invariant = { λ o. (o.top ≤ length o.ring.now) × (length o.ring.now ≤ MOST_ROOM) };
}

impl<'a> Saved<'a> {
    /// The first `len` octets, in the two pieces in which they lie. The second is seldom other than empty.
    #[inline(always)]
    pub fn first(&self, len: usize) -> (&'a [u8], &'a [u8])
        requires { len ≤ length self.now.octets }
        ensures { result.0.now ++ result.1.now ≡ take len self.now.octets }
    {
        pieces(self.ring, self.top, len)
    }

    /// Copies the first octets out, as many as `out` has.
    #[inline(always)]
    pub fn read_into(&self, out: &mut [u8])
        requires { length out.old ≤ length self.now.octets }
        ensures { out.new ≡ take (length out.old) self.now.octets }
    {
        let (front, back) = self.first(out.len());
        let (low, high) = out.split_at_mut(front.len());
        low.copy_from_slice(front);
        high.copy_from_slice(back);
    }

    /// The first `N` octets.
    #[inline(always)]
    pub fn read_array<const N: usize>(&self) -> [u8; N]
        requires { N ≤ length self.now.octets }
        ensures { result ≡ take N self.now.octets }
    {
        let mut octets = [0; N];
        self.read_into(&mut octets);
        octets
    }

    /// The octets behind the first `len`.
    #[inline(always)]
    pub fn behind(&self, len: usize) -> Saved<'a>
        requires { len ≤ length self.now.octets }
        ensures seen { result ≡ given_up len self.now }
        ensures room { length result.octets ≡ length self.now.octets }
    {
        Saved {
            ring: self.ring,
            top: forward(self.ring.len(), self.top, len),
        }
    }
}

/// `len` places behind place `top`, where what is past the end is the beginning.
#[inline(always)]
fn forward(size: usize, top: usize, len: usize) -> usize
    requires top { top ≤ size }
    requires len { len ≤ size }
    ensures { result ≡ forward_by size len top }
{
    let rest = size - top;
    if len < rest { top + len } else { len - rest }
}
