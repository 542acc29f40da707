//! What C keeps.
ghost use Rattle.std.specs.Prelude.{◌≡◌, Option, Some, None, MatchOption, is_some};

use std::alloc::Global;

/// A handle: it can contain one value of the heap, and contains none while all its bytes are 0.
pub trait Handle {
    /// What it holds.
    type Held: Drop;

    ghost held: { Self → Option Self.Held };

    /// Whether the handle holds something.
    fn is_live(&self) -> bool
        ensures { result ≡ is_some (Self.held self.now) };

    /// Takes what is held out of the handle. Each call puts it back at its end, which costs a load and a store.
    fn take(&mut self, alloc: Global) -> Option<Box<Self::Held>>
        ensures gone { Self.held self.new ≡ None }
        ensures value { MatchOption result (Self.held self.old ≡ None) (λ held. Self.held self.old ≡ Some held.value) };

    /// Puts something into a handle that holds nothing.
    fn put(&mut self, value: Box<Self::Held>)
        requires { Self.held self.old ≡ None }
        ensures { Self.held self.new ≡ Some value.value };
}
