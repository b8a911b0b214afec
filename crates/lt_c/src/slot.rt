//! A handle behind a pointer that C keeps.
ghost use Rattle.std.specs.Prelude.{◌≡◌, ◌≢◌, Option, None, Some};
ghost use Rattle.lt_c.specs.declared.handle.Handle.{Handle};
ghost use Rattle.lt_c.specs.Slot.{slot_coded, slot_owns};

mod parts;

use crate::handle::Handle;
use parts::Parts;
use std::alloc::Global;
use std::marker::Model;

/// A pointer that C keeps: to a handle, or to nothing.
#[repr(C)]
#[derive(Drop)]
pub struct Slot {
    ptr: *mut u8,
    alloc: Global,
    pub ghost held: { Option Handle } by { slot_coded },
}

impl Model for Slot {
    ghost also_owns = { λ s. slot_owns s.alloc s.ptr s.held };
}

impl Slot {
    /// A pointer to nothing.
    pub(crate) fn empty(alloc: Global) -> Slot
        ensures { result.held ≡ None }
    {
        let ptr: *mut u8 = std::ptr::null_mut();
        Slot { ptr, alloc }
    }

    /// The pointer to a boxed handle.
    pub(crate) fn of(handle: Box<Handle, Global>) -> Slot
        ensures { result.held ≡ Some handle.value }
    {
        Slot::of_parts(Parts::of(sendable(handle)))
    }

    /// The box again.
    pub(crate) fn into_box(self) -> Box<Handle, Global>
        requires { self.held ≢ None }
        ensures { self.held ≡ Some result.value }
    {
        self.into_parts().into_box()
    }

    fn of_parts(parts: Parts<Handle, Global>) -> Slot
        ensures { result.held ≡ Some parts.value }
    {
        let Parts { ptr, alloc } = parts;
        Slot {
            ptr: ptr as *mut u8,
            alloc,
        }
    }

    fn into_parts(self) -> Parts<Handle, Global>
        requires { self.held ≢ None }
        ensures { self.held ≡ Some result.value }
    {
        let Slot { ptr, alloc } = self;
        Parts {
            ptr: ptr as *mut Handle,
            alloc,
        }
    }
}

// C may pass a handle to another thread, since what it holds may go there.
unsafe impl Send for Slot {}

/// Only what may go to another thread gets through.
fn sendable<T: Send>(value: T) -> T
    ensures { result ≡ value }
{
    value
}
