//! A box, taken apart.
ghost use Rattle.std.specs.Prelude.{◌≡◌};
ghost use Rattle.std_alloc.specs.Box.Ownership.{box_owns};

use std::alloc::Allocator;
use std::marker::Model;

/// A box as the address of its block and the handle that frees it. It owns what the box owned: the value at the
/// address.
///
/// A pointer of a known type can be cast to one of no type and back, which a box cannot.
pub struct Parcel<T, A: Allocator> {
    pub at: *mut T,
    pub heap: A,
    pub ghost value: { T },
}

impl<T, A: Allocator> Model for Parcel<T, A> {
    ghost also_owns = { λ p. box_owns (A.dealloc_token p.heap) T.row p.at p.value };
}

impl<T: Drop, A: Allocator> Parcel<T, A> {
    /// Takes a box apart.
    pub fn wrap(boxed: Box<T, A>) -> Parcel<T, A>
        ensures { result.value ≡ boxed.value }
    {
        let (at, heap) = Box::into_raw_with_allocator(boxed);
        Parcel { at, heap }
    }

    /// Makes the box again.
    pub fn unwrap(self) -> Box<T, A>
        ensures { result.value ≡ self.value }
    {
        let Parcel { at, heap } = self;
        unsafe { Box::from_raw(heap, at) }
    }
}
