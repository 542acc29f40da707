//! What C keeps of a domain.
ghost use Rattle.std.specs.Prelude.{◌≡◌, Some, None, is_some};

use crate::domain_slot::DomainSlot;
use crate::hosted::Hosted;
use c_surface::{Handle, Parcel};
use std::alloc::Global;

/// A handle: it can contain one domain, and contains none while all its bytes are 0.
#[repr(C)]
pub struct DomainHandle {
    pub slot: DomainSlot,
    live: bool,
    ghost agree: { is_some slot.domain ≡ live },
}

impl Handle for DomainHandle {
    type Held = Hosted;

    ghost held = { λ h. h.slot.domain };

    fn is_live(&self) -> bool {
        self.live
    }

    fn take(&mut self, alloc: Global) -> Option<Box<Hosted>> {
        if self.live {
            self.live = false;
            Some(self.slot.empty(alloc).unwrap())
        } else {
            None
        }
    }

    fn put(&mut self, value: Box<Hosted>)
        requires { self.old.slot.domain ≡ None }
        ensures { self.new.slot.domain ≡ Some value.value }
    {
        self.live = true;
        self.slot.fill(Parcel::wrap(value));
    }
}

/// Rejects a type that may not go to another thread.
#[allow(dead_code)]
fn domain_goes<T: Send>() {}

/// Checks that a handle may.
#[allow(dead_code)]
fn domain_handle_goes_to_threads() {
    domain_goes::<DomainHandle>();
}
