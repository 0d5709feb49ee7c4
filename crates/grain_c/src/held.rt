//! The handle by which C keeps a file that was read.
//!
//! What a handle keeps is a block of the heap with a [`FlatFile`] in it. Contracts see its program. While it is lent, what stands
//! in the block doesn't change. A handle has no `Drop`, so that none which keeps something is let go in silence.
ghost use Rattle.std.specs.Prelude.{◌≡◌, true, false, IfSome, IfNone};
ghost use Rattle.grain.specs.Program.{Program};
ghost use Rattle.grain_c.specs.Holds.{content_code};

use grain_flat_file::FlatFile;
use std::alloc::Global;
use std::marker::Model;
use std::{mem, ptr};

/// What C holds. All bytes zero is a handle that keeps nothing.
#[repr(C)]
pub struct CHeldFile {
    made: bool,
    block: *mut u8,
    pub ghost content: { Program } by { content_code },
}

impl Model for CHeldFile {
    ghost use Rattle.grain_c.specs.Holds.{holds};

    ghost also_owns = { λ f. holds f.made f.block f.content };
}

unsafe impl Send for CHeldFile {}

impl CHeldFile {
    /// Keeps nothing.
    fn none() -> CHeldFile
        ensures { result.made ≡ false }
    {
        CHeldFile {
            made: false,
            block: ptr::null_mut(),
        }
    }

    /// Keeps this.
    fn of(kept: Box<FlatFile>) -> CHeldFile
        ensures { (result.made ≡ true) × (result.content ≡ kept.value) }
    {
        let block = Box::into_raw(kept);
        CHeldFile {
            made: true,
            block: block as *mut u8,
        }
    }

    /// Whether it keeps something.
    fn is_made(&mut self) -> bool
        ensures { (result ≡ self.old.made) × (self.new ≡ self.old) }
    {
        self.made
    }

    /// What it keeps.
    fn lend(&mut self) -> &mut FlatFile
        requires { self.old.made ≡ true }
        ensures { result.now ≡ self.old.content }
    {
        unsafe { &mut *(self.block as *mut FlatFile) }
    }

    /// What it keeps.
    fn into_box(self, alloc: Global) -> Box<FlatFile>
        requires { self.made ≡ true }
        ensures { result.value ≡ self.content }
    {
        let CHeldFile { made: _, block } = self;
        unsafe { Box::from_raw(alloc, block as *mut FlatFile) }
    }

    /// Lets one go that keeps nothing.
    fn end(self)
        requires { self.made ≡ false }
    {
        let CHeldFile { made: _, block: _ } = self;
    }

    /// What it keeps, if anything.
    fn into_kept(mut self, alloc: Global) -> Option<Box<FlatFile>>
        ensures { self.made ≡ true → IfSome result (λ b. b.value ≡ self.content) }
    {
        if self.is_made() {
            Some(self.into_box(alloc))
        } else {
            self.end();
            None
        }
    }

    /// What it keeps, if anything, lent.
    pub(crate) fn kept(&mut self) -> Option<&FlatFile>
        ensures some { IfSome result (λ f. (self.old.made ≡ true) × (f.now ≡ self.old.content)) }
        ensures none { IfNone result (self.old.made ≡ false) }
    {
        if self.is_made() {
            Some(self.lend())
        } else {
            None
        }
    }

    /// Keeps nothing from now on. What it kept is dropped.
    pub(crate) fn clear(&mut self, alloc: Global)
        ensures { self.new.made ≡ false }
    {
        drop(mem::replace(self, CHeldFile::none()).into_kept(alloc));
    }

    /// Keeps this from now on. What it kept before is dropped.
    pub(crate) fn keep(&mut self, alloc: Global, kept: Box<FlatFile>)
        ensures { (self.new.made ≡ true) × (self.new.content ≡ kept.value) }
    {
        drop(mem::replace(self, CHeldFile::of(kept)).into_kept(alloc));
    }
}
