//! The entries of a guest's pages, in 8 bytes each.
ghost use Rattle.std.specs.Prelude.{◌≡◌, ◌<◌, ◌^◌, length, replicate, slice_set, slice_get, Some, IfOk};
ghost use Rattle.merge_core.specs.PackedPages.{unpacked, mpn_in};
ghost use Rattle.merge_core.specs.declared.held.PageEntry.TheVariants as entries;

use crate::held::PageEntry;
use lazy_list::LazyList;
use std::alloc::{AllocError, Allocator, Global};
use std::marker::Model;
use std::mem::size_of;

/// A page's entry in 8 bytes. The word is its frame times 4, and its kind: 0 for an unmapped page, 1 for a private page without a
/// hint, 2 for one with a hint, and 3 for a shared page. A page without a frame has frame 0 there, and one without a hint has
/// hint 0.
#[derive(Clone, Copy)]
pub struct PackedPage {
    word: u32,
    hint: u32,
}

const _: () = prove!(size_of::<PackedPage>() == 8);

impl PackedPage {
    /// Packs an entry.
    fn of(entry: PageEntry) -> PackedPage
        requires fits { mpn_in entry < 2 ^ 30 }
        ensures { unpacked result ≡ entry }
    {
        match entry {
            PageEntry::Unmapped => PackedPage { word: 0, hint: 0 },
            PageEntry::Private(mpn, None) => PackedPage {
                word: mpn * 4 + 1,
                hint: 0,
            },
            PageEntry::Private(mpn, Some(key)) => PackedPage {
                word: mpn * 4 + 2,
                hint: key,
            },
            PageEntry::Shared(mpn) => PackedPage {
                word: mpn * 4 + 3,
                hint: 0,
            },
        }
    }

    /// Returns the entry.
    fn entry(self) -> PageEntry
        ensures { result ≡ unpacked self }
    {
        let mpn = self.word / 4;
        let kind = self.word % 4;
        if kind == 0 {
            return PageEntry::Unmapped;
        }
        if kind == 1 {
            return PageEntry::Private(mpn, None);
        }
        if kind == 2 {
            return PageEntry::Private(mpn, Some(self.hint));
        }
        PageEntry::Shared(mpn)
    }
}

/// The entries of a guest's pages, by their numbers. Their number is fixed. `new` takes all memory, but an entry's memory is first
/// touched when that entry or a later one is set.
#[derive(Drop)]
pub struct PageEntries<A: Allocator = Global> {
    pages: LazyList<PackedPage, A>,
}

impl<A: Allocator> Model for PageEntries<A> {
    ghost use Rattle.std.specs.Prelude.{List, ◌<◌, ◌^◌, length};
    ghost use Rattle.merge_core.specs.declared.held.PageEntry.{PageEntry};
    ghost use Rattle.merge_core.specs.PackedPages.{entries_in};

    ghost Value = { List PageEntry };

    ghost view = { λ p. entries_in p.pages };

    ghost invariant = { λ p. length p.pages < 2 ^ 32 };
}

impl<A: Allocator> PageEntries<A> {
    /// Makes the entries of this many pages, none of them mapped.
    pub fn new(alloc: A, pages: u32) -> Result<PageEntries<A>, AllocError>
        ensures { IfOk result (λ made. made ≡ replicate pages entries.Unmapped) }
    {
        let pages = LazyList::new(alloc, pages, PackedPage { word: 0, hint: 0 })?;
        Ok(PageEntries { pages })
    }

    /// Returns the number of pages.
    pub fn len(&self) -> u32
        ensures { result ≡ length self.now }
    {
        self.pages.len()
    }

    /// Returns a page's entry.
    pub fn get(&self, ppn: usize) -> PageEntry
        requires { ppn < length self.now }
        ensures { slice_get self.now ppn ≡ Some result }
    {
        self.pages.get(ppn as u32).entry()
    }

    /// Sets a page's entry.
    pub fn set(&mut self, ppn: usize, entry: PageEntry)
        requires page { ppn < length self.old }
        requires fits { mpn_in entry < 2 ^ 30 }
        ensures { self.new ≡ slice_set self.old ppn entry }
    {
        self.pages.set(ppn as u32, PackedPage::of(entry));
    }
}
