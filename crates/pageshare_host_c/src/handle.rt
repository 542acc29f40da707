//! What C keeps of a host.
ghost use Rattle.std.specs.Prelude.{◌≡◌, Some, None, is_some};

use crate::hosted::Hosted;
use crate::slot::HostSlot;
use c_surface::{Handle, Parcel};
use std::alloc::Global;

/// A handle: it can contain one host, and contains none while all its bytes are 0.
#[repr(C)]
pub struct HostHandle {
    pub slot: HostSlot,
    live: bool,
    ghost agree: { is_some slot.host ≡ live },
}

impl Handle for HostHandle {
    type Held = Hosted;

    ghost held = { λ h. h.slot.host };

    fn is_live(&self) -> bool {
        self.live
    }

    fn take(&mut self, alloc: Global) -> Option<Box<Hosted>> {
        if self.live {
            self.live = false;
            Some(self.slot.empty(alloc).unwrap())
        } else {
            None
        }
    }

    fn put(&mut self, value: Box<Hosted>)
        requires { self.old.slot.host ≡ None }
        ensures { self.new.slot.host ≡ Some value.value }
    {
        self.live = true;
        self.slot.fill(Parcel::wrap(value));
    }
}

/// Rejects a type that may not go to another thread.
#[allow(dead_code)]
fn host_goes<T: Send>() {}

/// Checks that a handle may.
#[allow(dead_code)]
fn host_handle_goes_to_threads() {
    host_goes::<HostHandle>();
}
