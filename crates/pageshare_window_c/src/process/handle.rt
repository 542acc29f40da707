//! What C keeps of a process.
ghost use Rattle.std.specs.Prelude.{◌≡◌, Some, None, is_some};

use crate::process::held::HeldProcess;
use crate::process::slot::ProcessSlot;
use c_handles::{Handle, Parcel};
use std::alloc::Global;

/// A handle: it can contain all windows of one process, and contains none while all its bytes are 0.
#[repr(C)]
pub struct ProcessHandle {
    pub slot: ProcessSlot,
    live: bool,
    ghost agree: { is_some slot.lender ≡ live },
}

impl Handle for ProcessHandle {
    type Held = HeldProcess;

    ghost held = { λ h. h.slot.lender };

    fn is_live(&self) -> bool {
        self.live
    }

    fn take(&mut self, alloc: Global) -> Option<Box<HeldProcess>> {
        if self.live {
            self.live = false;
            Some(self.slot.empty(alloc).unwrap())
        } else {
            None
        }
    }

    fn put(&mut self, value: Box<HeldProcess>)
        requires { self.old.slot.lender ≡ None }
        ensures { self.new.slot.lender ≡ Some value.value }
    {
        self.live = true;
        self.slot.fill(Parcel::wrap(value));
    }
}

/// Rejects a type that may not go to another thread.
#[allow(dead_code)]
fn process_goes<T: Send>() {}

/// Checks that a handle may.
#[allow(dead_code)]
fn process_handle_goes_to_threads() {
    process_goes::<ProcessHandle>();
}
