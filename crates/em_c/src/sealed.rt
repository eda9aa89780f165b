//! A box with a machine, or nothing, in a form that C can hold.
ghost use Rattle.std.specs.Prelude.{◌≡◌, None, Some, Option, IsSome};
ghost use Rattle.std.specs.Coded.{coded_option};
ghost use Rattle.em_c.specs.declared.tagged.Tagged.{Tagged};
ghost use Rattle.em_c.specs.contracts.tagged.Tagged as machine;

use crate::parts::Parts;
use crate::tagged::Tagged;
use std::alloc::Global;
use std::marker::Model;

/// A pointer to a machine that it owns, or to nothing. C sees a pointer, and knows no type that lies behind it.
#[repr(C)]
#[derive(Drop)]
pub struct Sealed {
    ptr: *mut u8,
    alloc: Global,
    pub ghost held: { Option Tagged } by { coded_option machine.the_row.coded },
}

impl Model for Sealed {
    ghost use Rattle.em_c.specs.Sealed.{sealed_owns};

    ghost also_owns = { λ s. sealed_owns s.alloc s.ptr s.held };
}

impl Sealed {
    ghost use Rattle.std.specs.Borrow.{sem};
    ghost use Rattle.em_c.specs.Lent.{LendsMachine};

    /// Nothing.
    pub fn empty(alloc: Global) -> Sealed
        ensures { result.held ≡ None }
    {
        Sealed {
            ptr: std::ptr::null_mut(),
            alloc,
        }
    }

    /// The machine of a box that was taken apart.
    pub fn of_parts(parts: Parts<Tagged, Global>) -> Sealed
        ensures { result.held ≡ Some parts.value }
    {
        let Parts { ptr, alloc } = parts;
        Sealed {
            ptr: ptr as *mut u8,
            alloc,
        }
    }

    /// The machine, where there is one.
    pub fn as_mut(&mut self) -> &mut Tagged
        requires { IsSome self.old.held }
        ensures* writes_back { sem 𝓛 (LendsMachine self.entry result) }
        ensures value { self.old.held ≡ Some result.now }
    {
        unsafe { &mut *(self.ptr as *mut Tagged) }
    }

    /// The parts of its box, where there is one.
    pub fn into_parts(self) -> Parts<Tagged, Global>
        requires { IsSome self.held }
        ensures { self.held ≡ Some result.value }
    {
        let Sealed { ptr, alloc } = self;
        Parts {
            ptr: ptr as *mut Tagged,
            alloc,
        }
    }
}

unsafe impl Send for Sealed {}
