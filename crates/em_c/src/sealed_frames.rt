//! A box with the frames of a capture, or nothing, in a form that C can hold.
ghost use Rattle.std.specs.Prelude.{◌≡◌, None, Some, Option, IsSome};
ghost use Rattle.std.specs.Coded.{coded_option};
ghost use Rattle.em_c.specs.declared.captured.Frames.{Frames};
ghost use Rattle.em_c.specs.contracts.captured.Frames as frames;

use crate::captured::Frames;
use crate::parts::Parts;
use std::alloc::Global;
use std::marker::Model;

/// A pointer to frames that it owns, or to nothing. C sees a pointer, and knows no type that lies behind it.
#[repr(C)]
#[derive(Drop)]
pub struct SealedFrames {
    ptr: *mut u8,
    alloc: Global,
    pub ghost held: { Option Frames } by { coded_option frames.the_row.coded },
}

impl Model for SealedFrames {
    ghost use Rattle.em_c.specs.SealedFrames.{sealed_owns};

    ghost also_owns = { λ s. sealed_owns s.alloc s.ptr s.held };
}

impl SealedFrames {
    /// Nothing.
    pub fn empty(alloc: Global) -> SealedFrames
        ensures { result.held ≡ None }
    {
        SealedFrames {
            ptr: std::ptr::null_mut(),
            alloc,
        }
    }

    /// The frames of a box that was taken apart.
    pub fn of_parts(parts: Parts<Frames, Global>) -> SealedFrames
        ensures { result.held ≡ Some parts.value }
    {
        let Parts { ptr, alloc } = parts;
        SealedFrames {
            ptr: ptr as *mut u8,
            alloc,
        }
    }

    /// The parts of their box, where there is one.
    pub fn into_parts(self) -> Parts<Frames, Global>
        requires { IsSome self.held }
        ensures { self.held ≡ Some result.value }
    {
        let SealedFrames { ptr, alloc } = self;
        Parts {
            ptr: ptr as *mut Frames,
            alloc,
        }
    }
}

unsafe impl Send for SealedFrames {}
