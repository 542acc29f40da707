//! Handles, with the statuses of their calls.
ghost use Rattle.std.specs.Prelude.{◌≡◌, Some, None};
ghost use Rattle.c_surface.specs.Statuses.{held_status};

use crate::status;
use c_handles::Handle;
use std::alloc::Global;

/// Frees what a handle holds, and returns the status.
pub fn free<H: Handle>(handle: &mut H, alloc: Global) -> u32
    ensures none { H.held handle.new ≡ None }
    ensures status { result ≡ held_status (H.held handle.old) }
{
    match handle.take(alloc) {
        None => status::NO_MACHINE,
        Some(_held) => status::OK,
    }
}

/// Puts a value back into the handle from which it was taken, and returns this status.
pub fn put_back<H: Handle>(handle: &mut H, value: Box<H::Held>, status: u32) -> u32
    requires { H.held handle.old ≡ None }
    ensures held { H.held handle.new ≡ Some value.value }
    ensures status { result ≡ status }
{
    handle.put(value);
    status
}
