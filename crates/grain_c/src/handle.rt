//! The handle by which C keeps a scratch between calls.
//!
//! What a handle keeps is a block of the heap with a scratch in it. That no contract says which one is meant: an answer
//! doesn't depend on it. A handle has no `Drop`, so that none which keeps something is let go in silence.
ghost use Rattle.std.specs.Prelude.{◌≡◌, true, false};

use grain_flat::FlatScratch;
use std::alloc::Global;
use std::marker::Model;
use std::{mem, ptr};

/// What C holds. All bytes zero is a handle that keeps nothing.
#[repr(C)]
pub struct CScratch {
    made: bool,
    block: *mut u8,
}

impl Model for CScratch {
    ghost use Rattle.grain_c.specs.Keeps.{keeps};

    ghost also_owns = { λ s. keeps s.made s.block };
}

unsafe impl Send for CScratch {}

impl CScratch {
    /// Keeps nothing.
    fn none() -> CScratch {
        CScratch {
            made: false,
            block: ptr::null_mut(),
        }
    }

    /// Keeps this.
    fn of(kept: Box<FlatScratch>) -> CScratch {
        let block = Box::into_raw(kept);
        CScratch {
            made: true,
            block: block as *mut u8,
        }
    }

    /// Whether it keeps something.
    fn is_made(&mut self) -> bool
        ensures { result ≡ self.new.made }
    {
        self.made
    }

    /// What it keeps.
    fn into_box(self, alloc: Global) -> Box<FlatScratch>
        requires { self.made ≡ true }
    {
        let CScratch { made: _, block } = self;
        unsafe { Box::from_raw(alloc, block as *mut FlatScratch) }
    }

    /// Lets one go that keeps nothing.
    fn end(self)
        requires { self.made ≡ false }
    {
        let CScratch { made: _, block: _ } = self;
    }

    /// What it keeps, if anything.
    fn into_kept(mut self, alloc: Global) -> Option<Box<FlatScratch>> {
        if self.is_made() {
            Some(self.into_box(alloc))
        } else {
            self.end();
            None
        }
    }
}

/// What the handle keeps, if anything, which then keeps nothing.
pub(crate) fn take(alloc: Global, scratch: &mut CScratch) -> Option<Box<FlatScratch>> {
    mem::replace(scratch, CScratch::none()).into_kept(alloc)
}

/// Has the handle keep this. What it kept before is dropped.
pub(crate) fn keep(alloc: Global, scratch: &mut CScratch, kept: Box<FlatScratch>) {
    drop(mem::replace(scratch, CScratch::of(kept)).into_kept(alloc));
}
