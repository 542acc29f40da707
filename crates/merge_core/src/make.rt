//! The parts of a new core.
ghost use Rattle.std.specs.Prelude.{◌≡◌, length, replicate, IfOk};
ghost use Rattle.page_model.specs.Limits.{AreLimits, shapes};
ghost use Rattle.machine_frames.specs.FrameMap.{no_frames};
ghost use Rattle.share_table.specs.TableMaps.{empty_table};
ghost use Rattle.merge_core.specs.Pmap.{empty_pmap, unknown, unmapped_guest};
ghost use Rattle.merge_core.specs.View.{guest_of, pmap_in, pmap_of, Whole};

use crate::entries::PageEntries;
use crate::held::{GuestPages, Held};
use crate::notes::Notes;
use machine_frames::Frames;
use page_digest::PageHash;
use page_model::MachineShape;
use share_table::Table;
use std::alloc::{AllocError, Allocator};

/// Makes a guest with no page mapped.
fn new_guest<A: Allocator>(alloc: A, salt: u32, pages: u32) -> Result<GuestPages<A>, AllocError>
    ensures { IfOk result (λ g. guest_of g ≡ unmapped_guest (record { salt = salt; pages = pages })) }
{
    let pages = PageEntries::new(alloc, pages)?;
    Ok(GuestPages { salt, pages })
}

/// Makes guests with these salts and numbers of pages, and no page mapped.
fn new_guests<A: Allocator + Clone>(
    alloc: A,
    salts: &[u32],
    pages: &[u32],
) -> Result<Vec<GuestPages<A>, A>, AllocError>
    requires { length salts.now ≡ length pages.now }
    ensures { IfOk result (λ v. pmap_in v.items ≡ empty_pmap (shapes salts.now pages.now)) }
{
    let mut guests = Vec::with_capacity(alloc.clone()?, pages.len())?;
    for i in 0..pages.len() {
        guests.push_reserved(new_guest(alloc.clone()?, salts[i], pages[i])?);
    }
    Ok(guests)
}

/// Makes the lists of a core, with all the room that they ever need: no page is mapped, and nothing is known of any frame.
fn new_lists<A: Allocator + Clone>(
    alloc: A,
    shape: &MachineShape<'_>,
) -> Result<(Vec<GuestPages<A>, A>, Notes<A>, Table<A>), AllocError>
    ensures limits { AreLimits shape.now.frames shape.now.pages shape.now.salts }
    ensures guests { IfOk result (λ (guests, notes, table). pmap_in guests.items ≡ empty_pmap (shapes shape.now.salts shape.now.pages)) }
    ensures notes { IfOk result (λ (guests, notes, table). notes ≡ replicate shape.now.frames unknown) }
    ensures table { IfOk result (λ (guests, notes, table). table ≡ empty_table shape.now.frames) }
{
    let total = shape.frames();
    let guests = new_guests(alloc.clone()?, shape.salts(), shape.pages())?;
    let notes = Notes::new(alloc.clone()?, total)?;
    let table = Table::new(alloc, total)?;
    Ok((guests, notes, table))
}

/// Makes the parts of a core with these frames, no page mapped, and with all the room that they ever need.
pub fn new_held<H: PageHash + Drop, A: Allocator + Clone>(
    alloc: A,
    shape: &MachineShape<'_>,
    hash: H,
    frames: Frames<A>,
) -> Result<Held<H, A>, AllocError>
    requires { frames ≡ no_frames shape.now.frames }
    ensures whole { IfOk result (λ held. Whole H.hash_of held) }
    ensures pmap { IfOk result (λ held. pmap_of held ≡ empty_pmap (shapes shape.now.salts shape.now.pages)) }
    ensures guests { IfOk result (λ held. length (pmap_of held) ≡ length shape.now.pages) }
    ensures frames { IfOk result (λ held. held.frames ≡ no_frames shape.now.frames) }
    ensures table { IfOk result (λ held. held.table ≡ empty_table shape.now.frames) }
{
    let (guests, notes, table) = new_lists(alloc, shape)?;
    Ok(Held {
        hash,
        frames,
        table,
        guests,
        notes,
        hints: 0,
    })
}

/// Makes the frames of a machine, all of them free.
pub fn new_frames<A: Allocator + Clone>(
    alloc: A,
    shape: &MachineShape<'_>,
) -> Result<Frames<A>, AllocError>
    ensures { IfOk result (λ frames. frames ≡ no_frames shape.now.frames) }
{
    match Frames::new(alloc, shape.frames()) {
        Err(_) => Err(AllocError),
        Ok(frames) => Ok(frames),
    }
}
