//! What C keeps of a handle.
ghost use Rattle.std.specs.Prelude.{◌≡◌, is_some, true, false, Some, IfSome};

use crate::handle::Handle;
use crate::slot::Slot;
use std::alloc::Global;
use std::mem;

/// What C keeps of a handle. All bytes 0 is a handle that is not open.
#[repr(C)]
#[derive(Drop)]
pub struct LtHandle {
    pub(crate) is_open: bool,
    pub(crate) slot: Slot,
    ghost kept: { is_open ≡ is_some slot.held },
}

/// A handle that is not open.
pub(crate) fn shut(alloc: Global) -> LtHandle
    ensures { result.is_open ≡ false }
{
    LtHandle {
        is_open: false,
        slot: Slot::empty(alloc),
    }
}

/// The handle in a box, for C to keep.
pub(crate) fn opened(handle: Box<Handle, Global>) -> LtHandle
    ensures open { result.is_open ≡ true }
    ensures same { result.slot.held ≡ Some handle.value }
{
    LtHandle {
        is_open: true,
        slot: Slot::of(handle),
    }
}

/// The box of an open handle, which is not open then.
pub(crate) fn take(alloc: Global, handle: &mut LtHandle) -> Option<Box<Handle, Global>>
    ensures closed { handle.new.is_open ≡ false }
    ensures found { is_some result ≡ handle.old.is_open }
    ensures same { IfSome result (λ b. handle.old.slot.held ≡ Some b.value) }
{
    let LtHandle { is_open, slot } = mem::replace(handle, shut(alloc));
    if is_open { Some(slot.into_box()) } else { None }
}
