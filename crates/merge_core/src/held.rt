//! What a core keeps.
use crate::entries::PageEntries;
use crate::notes::Notes;
use machine_frames::Frames;
use share_table::Table;
use std::alloc::{Allocator, Global};

/// A page: its frame, and a private page's hint.
#[derive(Clone, Copy)]
pub enum PageEntry {
    Unmapped,
    Private(u32, Option<u32>),
    Shared(u32),
}

/// A page's guest, its number, and its guest's salt.
#[derive(Clone, Copy)]
pub struct Place {
    pub guest: usize,
    pub ppn: usize,
    pub salt: u32,
}

/// A guest's salt, and its pages by their numbers.
#[derive(Drop)]
pub struct GuestPages<A: Allocator = Global> {
    pub salt: u32,
    pub pages: PageEntries<A>,
}

/// The parts of a core.
#[derive(Drop)]
pub struct Held<H, A: Allocator = Global> {
    pub hash: H,
    pub frames: Frames<A>,
    pub table: Table<A>,
    pub guests: Vec<GuestPages<A>, A>,
    pub notes: Notes<A>,
    /// How many hints the table has.
    pub hints: u32,
}
