//! What looks have found of a page, out of its 12 bytes and back.
ghost use Rattle.std.specs.Prelude.{◌≡◌, false};
ghost use Rattle.page_looks.specs.Idle.{met};
ghost use Rattle.page_looks.specs.Notes.{Notes, NotesRead, looks_of, seen_if_alike};
ghost use Rattle.window_pages.specs.Bytes.{known_of, notes_of};

use crate::idle::PageLooks;
use window_pages::{PageNotes, PartCounts, WindowPage, write_notes};

/// Returns what looks have found of a page.
pub fn looks_of(page: &WindowPage) -> PageLooks
    ensures { result ≡ looks_of page.now }
{
    let notes = page.notes();
    PageLooks {
        fingerprint: notes.fingerprint,
        clue: notes.clue,
        looks: notes.looks,
        asks: notes.asks,
    }
}

/// Writes what looks have found of a page, and whether it was seen elsewhere or is zeros. Its part's counts follow.
pub fn write_looks(page: &mut WindowPage, part: &mut PartCounts, looks: &PageLooks, seen: bool)
    ensures { Notes looks.now seen page.old page.new part.old part.new }
{
    let notes = PageNotes {
        fingerprint: looks.fingerprint,
        clue: looks.clue,
        looks: looks.looks,
        asks: looks.asks,
        seen,
    };
    write_notes(page, part, &notes);
}

// Writes that a look has met a page: it is new, or has changed, and this is what a glance finds there.
pub(crate) fn write_met(page: &mut WindowPage, part: &mut PartCounts, number: u32, glance: u16)
    ensures { Notes (met (looks_of page.old) number glance) false page.old page.new part.old part.new }
{
    let mut looks = looks_of(page);
    looks.met(number, glance);
    write_looks(page, part, &looks, false);
}

// Returns whether a page that was seen elsewhere counts so still, once it was read: it was read with the same fingerprint.
fn seen_if_alike(is_over: bool, looks: u8, seen: bool) -> bool
    ensures { result ≡ seen_if_alike is_over looks seen }
{
    let first = if is_over { 1 } else { 2 };
    seen && looks > first
}

// Writes a page's fingerprint, which was read now, and what a glance finds by it.
pub(crate) fn write_read(
    page: &mut WindowPage,
    part: &mut PartCounts,
    fingerprint: u64,
    glance: u16,
)
    ensures { NotesRead fingerprint glance page.old page.new part.old part.new }
{
    let is_over = page.known().over;
    let mut looks = looks_of(page);
    looks.read(is_over, fingerprint, glance);
    let seen = seen_if_alike(is_over, looks.looks, page.notes().seen);
    write_looks(page, part, &looks, seen);
}
