//! The record of a write to guest memory.
ghost use Rattle.std.specs.Prelude.{◌≡◌, ◌≤◌, vec_len};

use crate::MOST_RECORD;
use std::marker::Model;

/// Old octets of guest memory, and the address where they lay.
#[derive(Drop)]
pub struct MemUndo {
    pub(crate) addr: u64,
    pub(crate) octets: Vec<u8>,
}

impl Model for MemUndo {
    ghost use Rattle.std.specs.Prelude.{◌≤◌, length};
    ghost use Rattle.em_mem.specs.declared.TheConstants.{MOST_RECORD};
    ghost use Rattle.em_mem.specs.Memory.{Patch};

    ghost Value = { Patch };

    ghost view = { λ u. record { at = u.addr; octets = u.octets.items } };

    ghost invariant = { λ u. length u.octets.items ≤ MOST_RECORD };
}

impl MemUndo {
    /// A record of octets that lay from `addr` on. It takes no memory.
    pub fn new(addr: u64, octets: Vec<u8>) -> MemUndo
        requires { vec_len octets ≤ MOST_RECORD }
        ensures { result ≡ record { at = addr; octets = octets.items } }
    {
        MemUndo { addr, octets }
    }
}
