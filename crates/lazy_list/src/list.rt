//! A list of a fixed length, all of whose elements are equal at first.
ghost use Rattle.std.specs.Prelude.{◌≡◌, ◌+◌, ◌-◌, ◌<◌, ◌≤◌, ◌++◌, length, replicate, slice_set, slice_get, vec_capacity, Some, IfOk};

use std::alloc::{AllocError, Allocator, Global};
use std::marker::Model;

/// A list of a fixed length. `new` takes all memory, but an element's memory is first touched when that element or a later one is
/// set. Until then it is equal to the one that `new` was given.
#[derive(Drop)]
pub struct LazyList<T: Copy, A: Allocator = Global> {
    // The elements up to the last one that was set, and room for all.
    reached: Vec<T, A>,
    len: u32,
    rest: T,
}

impl<T: Copy, A: Allocator> Model for LazyList<T, A> {
    ghost use Rattle.std.specs.Prelude.{List, ◌-◌, ◌++◌, ◌≤◌, length, replicate, vec_capacity};

    ghost Value = { List T };

    ghost view = { λ l. l.reached.items ++ replicate (l.len - length l.reached.items) l.rest };

    ghost invariant = { λ l. (length l.reached.items ≤ l.len) × (l.len ≤ vec_capacity l.reached) };
}

impl<T: Copy, A: Allocator> LazyList<T, A> {
    /// Makes a list of `len` elements, all of them equal to `item`.
    pub fn new(alloc: A, len: u32, item: T) -> Result<LazyList<T, A>, AllocError>
        ensures { IfOk result (λ list. list ≡ replicate len item) }
    {
        let reached = Vec::with_capacity(alloc, len as usize)?;
        Ok(LazyList {
            reached,
            len,
            rest: item,
        })
    }

    /// Returns the number of elements.
    pub fn len(&self) -> u32
        ensures { result ≡ length self.now }
    {
        self.len
    }

    /// Returns an element.
    pub fn get(&self, index: u32) -> T
        requires { index < length self.now }
        ensures { slice_get self.now index ≡ Some result }
    {
        if index as usize >= self.reached.len() {
            return self.rest;
        }
        self.reached[index as usize]
    }

    /// Sets an element.
    pub fn set(&mut self, index: u32, item: T)
        requires { index < length self.old }
        ensures { self.new ≡ slice_set self.old index item }
    {
        lengthen(&mut self.reached, index as usize + 1, self.rest);
        self.reached[index as usize] = item;
    }
}

/// Appends equal elements until the list has at least this many.
fn lengthen<T: Copy, A: Allocator>(list: &mut Vec<T, A>, least: usize, item: T)
    requires room { least ≤ vec_capacity list.old }
    ensures items { list.new.items ≡ list.old.items ++ replicate (least - length list.old.items) item }
    ensures capacity { vec_capacity list.new ≡ vec_capacity list.old }
{
    for _ in 0..least.saturating_sub(list.len()) {
        list.push_reserved(item);
    }
}
