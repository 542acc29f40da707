//! What is made of pages.
ghost use Rattle.std.specs.Prelude.{◌≡◌, ◌++◌, ℕ, List, OnOk};
ghost use Rattle.std.specs.List.{flat_map};

use page_model::Page;
use std::alloc::{AllocError, Allocator};

/// What is made of pages that were read: items, in the order of the pages. Any thread can make them.
pub trait PageWork: Sync {
    /// What is made of a page.
    type Item: Copy + Send;

    /// The items that a page gives: one, several or none.
    ghost gives: { Self → List ℕ → List Self.Item };

    /// Returns for how many items to take memory before `pages` pages are read. Others are taken as they come.
    fn room(&self, pages: u32) -> usize;

    /// Appends the items that these pages give.
    fn push<A: Allocator>(
        &self,
        pages: &[Page],
        items: &mut Vec<Self::Item, A>,
    ) -> Result<(), AllocError>
        ensures { OnOk result (items.new.items ≡ items.old.items ++ flat_map (gives self.now) pages.now) };
}
