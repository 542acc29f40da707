//! What is known of frames besides their bytes.
ghost use Rattle.std.specs.Prelude.{◌≡◌, ◌+◌, ◌-◌, ◌<◌, ◌≤◌, ◌++◌, length, replicate, slice_set, vec_capacity, Some, None, IfOk};
ghost use Rattle.merge_core.specs.Pmap.{known_at, unknown};
ghost use Rattle.merge_core.specs.Noted.{known_of, notes_in};

use std::alloc::{AllocError, Allocator, Global};
use std::marker::Model;

/// What is known of a frame: the salt of its pages, and its hash if that was computed since the last store.
///
/// The hash is kept as its little-endian bytes, so that a note takes 16 bytes and not 24.
#[derive(Clone, Copy)]
pub struct Note {
    pub salt: u32,
    pub hash: Option<[u8; 8]>,
}

/// What is known of a frame at first.
const UNKNOWN: Note = Note {
    salt: 0,
    hash: None,
};

/// A note on each frame. The list has room for all of them but reaches only as far as the last frame that was noted, so
/// that making it touches no memory.
#[derive(Drop)]
pub struct Notes<A: Allocator = Global> {
    notes: Vec<Note, A>,
    frames: u32,
}

impl<A: Allocator> Model for Notes<A> {
    ghost use Rattle.std.specs.Prelude.{List};
    ghost use Rattle.merge_core.specs.Pmap.{Known};

    ghost Value = { List Known };

    ghost use Rattle.std.specs.Prelude.{◌≤◌, length, vec_capacity};
    ghost use Rattle.merge_core.specs.Noted.{notes_on};

    ghost view = { λ n. notes_on n.frames n.notes.items };

    ghost invariant = { λ n. (length n.notes.items ≤ n.frames) × (n.frames ≤ vec_capacity n.notes) };
}

impl<A: Allocator> Notes<A> {
    /// Makes the notes on this many frames: nothing is known of any.
    pub fn new(alloc: A, frames: u32) -> Result<Notes<A>, AllocError>
        ensures { IfOk result (λ notes. notes ≡ replicate frames unknown) }
    {
        let notes = Vec::with_capacity(alloc, frames as usize)?;
        Ok(Notes { notes, frames })
    }

    /// Returns the salt of a frame's pages.
    pub fn salt(&self, mpn: u32) -> u32
        requires mpn { mpn < length self.now }
        ensures salt { result ≡ (known_at self.now mpn).salt }
    {
        note_at(&self.notes, mpn).salt
    }

    /// Returns a frame's hash, if it is known.
    pub fn known_hash(&self, mpn: u32) -> Option<u64>
        requires mpn { mpn < length self.now }
        ensures hash { result ≡ (known_at self.now mpn).hash }
    {
        match note_at(&self.notes, mpn).hash {
            None => None,
            Some(bytes) => Some(u64::from_le_bytes(bytes)),
        }
    }

    /// Notes the salt of a frame's pages, and that its hash isn't known.
    pub fn forget(&mut self, mpn: u32, salt: u32)
        requires mpn { mpn < length self.old }
        ensures notes { self.new ≡ slice_set self.old mpn (record { salt = salt; hash = None }) }
    {
        set_note(&mut self.notes, mpn, Note { salt, hash: None });
    }

    /// Notes the salt of a frame's pages, and its hash.
    pub fn learn(&mut self, mpn: u32, salt: u32, code: u64)
        requires mpn { mpn < length self.old }
        ensures notes { self.new ≡ slice_set self.old mpn (record { salt = salt; hash = Some code }) }
    {
        let note = Note {
            salt,
            hash: Some(code.to_le_bytes()),
        };
        set_note(&mut self.notes, mpn, note);
    }
}

/// Returns the note on a frame, which may be past the list's end.
fn note_at(notes: &[Note], mpn: u32) -> Note
    ensures { known_of result ≡ known_at (notes_in notes.now) mpn }
{
    if mpn as usize >= notes.len() {
        return UNKNOWN;
    }
    notes[mpn as usize]
}

/// Sets the note on a frame, which may be past the list's end.
fn set_note<A: Allocator>(notes: &mut Vec<Note, A>, mpn: u32, note: Note)
    requires room { mpn < vec_capacity notes.old }
    ensures notes { notes_in notes.new.items
        ≡ slice_set (notes_in notes.old.items ++ replicate (mpn + 1 - length notes.old.items) unknown) mpn (known_of note) }
    ensures size { length notes.new.items ≡ length notes.old.items + (mpn + 1 - length notes.old.items) }
    ensures capacity { vec_capacity notes.new ≡ vec_capacity notes.old }
{
    lengthen(notes, mpn as usize + 1);
    notes[mpn as usize] = note;
}

/// Appends notes that know nothing, until the list has at least this many.
fn lengthen<A: Allocator>(notes: &mut Vec<Note, A>, least: usize)
    requires room { least ≤ vec_capacity notes.old }
    ensures notes { notes_in notes.new.items ≡ notes_in notes.old.items ++ replicate (least - length notes.old.items) unknown }
    ensures size { length notes.new.items ≡ length notes.old.items + (least - length notes.old.items) }
    ensures capacity { vec_capacity notes.new ≡ vec_capacity notes.old }
{
    for _ in 0..least.saturating_sub(notes.len()) {
        notes.push_reserved(UNKNOWN);
    }
}
