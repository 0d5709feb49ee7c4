//! The handle by which C keeps a session between calls.
//!
//! What a handle keeps is a block of the heap with a [`Session`] in it, which stays on its thread. Contracts see what they see of
//! the session. A handle has no `Drop`, so that none which keeps something is let go in silence.
ghost use Rattle.std.specs.Prelude.{◌≡◌, true, false, IfSome, IfNone};
ghost use Rattle.rhai_session.specs.Shown.{Shown};
ghost use Rattle.grain_engine_c.specs.Holds.{session_code};

use rhai_session::Session;
use std::alloc::Global;
use std::marker::Model;
use std::{mem, ptr};

/// What C holds. All bytes zero is a handle that keeps nothing.
#[repr(C)]
pub struct CSession {
    made: bool,
    block: *mut u8,
    pub ghost content: { Shown } by { session_code },
}

impl Model for CSession {
    ghost use Rattle.grain_engine_c.specs.Holds.{holds_session};

    ghost also_owns = { λ s. holds_session s.made s.block s.content };
}

impl CSession {
    /// Keeps nothing.
    fn none() -> CSession
        ensures { result.made ≡ false }
    {
        CSession {
            made: false,
            block: ptr::null_mut(),
        }
    }

    /// Keeps this.
    fn of(kept: Box<Session>) -> CSession
        ensures { (result.made ≡ true) × (result.content ≡ kept.value) }
    {
        let block = Box::into_raw(kept);
        CSession {
            made: true,
            block: block as *mut u8,
        }
    }

    /// Whether it keeps something.
    fn is_made(&mut self) -> bool
        ensures { (result ≡ self.old.made) × (self.new ≡ self.old) }
    {
        self.made
    }

    /// What it keeps.
    fn into_box(self, alloc: Global) -> Box<Session>
        requires { self.made ≡ true }
        ensures { result.value ≡ self.content }
    {
        let CSession { made: _, block } = self;
        unsafe { Box::from_raw(alloc, block as *mut Session) }
    }

    /// Lets one go that keeps nothing.
    fn end(self)
        requires { self.made ≡ false }
    {
        let CSession { made: _, block: _ } = self;
    }

    /// What it keeps, if anything.
    fn into_kept(mut self, alloc: Global) -> Option<Box<Session>>
        ensures some { IfSome result (λ b. (self.made ≡ true) × (b.value ≡ self.content)) }
        ensures none { IfNone result (self.made ≡ false) }
    {
        if self.is_made() {
            Some(self.into_box(alloc))
        } else {
            self.end();
            None
        }
    }

    /// What it keeps, if anything. Then it keeps nothing.
    pub(crate) fn take(&mut self, alloc: Global) -> Option<Box<Session>>
        ensures some { IfSome result (λ b. (self.old.made ≡ true) × (b.value ≡ self.old.content)) }
        ensures none { IfNone result (self.old.made ≡ false) }
        ensures left { self.new.made ≡ false }
    {
        mem::replace(self, CSession::none()).into_kept(alloc)
    }

    /// Keeps this from now on. What it kept before is dropped.
    pub(crate) fn keep(&mut self, alloc: Global, kept: Box<Session>)
        ensures { (self.new.made ≡ true) × (self.new.content ≡ kept.value) }
    {
        drop(mem::replace(self, CSession::of(kept)).into_kept(alloc));
    }

    /// Keeps nothing from now on. What it kept is dropped.
    pub(crate) fn clear(&mut self, alloc: Global)
        ensures { self.new.made ≡ false }
    {
        drop(self.take(alloc));
    }
}
