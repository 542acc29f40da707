//! What is noted of clients, and their first slots.
ghost use Rattle.std.specs.Prelude.{◌≡◌, ◌<◌, ◌≤◌, length};
ghost use Rattle.page_model.specs.declared.limits.TheConstants.{MAX_PAGES};
ghost use Rattle.lent_slots.specs.Fits.{Fits};
ghost use Rattle.lent_slots.specs.Slots.{holding, is_of, held_by};
ghost use Rattle.lent_slots.specs.Tags.{slots_of};
ghost use Rattle.lent_slots.specs.Noted.{noted_of, start_with, start_without, with_more, with_less, with_start, place_of, first_from};

use crate::core_slots::holding_in;
use crate::holding::{ClientSlots, Holding};
use lazy_list::LazyList;
use merge_core::Core;
use page_digest::PageHash;
use std::alloc::Allocator;

/// Whether a slot is this client's.
pub fn is_of(client: u32, slot: &Option<Holding>) -> bool
    ensures { result ≡ is_of client slot.now }
{
    match slot {
        None => false,
        Some(held) => held.client == client,
    }
}

/// Whether a slot is this client's: its tag is looked at first.
fn has_slot<H: PageHash, A: Allocator>(
    core: &Core<H, A>,
    tags: &LazyList<u32, A>,
    client: u32,
    ppn: u32,
) -> bool
    requires fits { Fits (slots_of core.now.pmap tags.now) core.now }
    requires within { ppn < length tags.now }
    ensures { result ≡ is_of client (holding (slots_of core.now.pmap tags.now) ppn) }
{
    if tags.get(ppn) != client {
        return false;
    }
    is_of(client, &holding_in(core, tags, ppn))
}

/// Counts the slots that are this client's.
pub fn count_of<H: PageHash, A: Allocator>(
    core: &Core<H, A>,
    tags: &LazyList<u32, A>,
    client: u32,
) -> u32
    requires fits { Fits (slots_of core.now.pmap tags.now) core.now }
    ensures count { result ≡ held_by client (slots_of core.now.pmap tags.now) }
{
    let mut count = 0;
    for i in 0..tags.len() {
        if has_slot(core, tags, client, i) {
            count += 1;
        }
    }
    count
}

/// Returns how many slots are noted of a client.
pub fn count_at<A: Allocator>(clients: &Vec<ClientSlots, A>, client: u32) -> u32
    requires { client < length clients.now.items }
    ensures { result ≡ (noted_of client clients.now.items).count }
{
    clients[client as usize].count
}

/// Returns the first slot from `start` on that is the client's.
pub fn find_from<H: PageHash, A: Allocator>(
    core: &Core<H, A>,
    tags: &LazyList<u32, A>,
    client: u32,
    start: u32,
) -> Option<u32>
    requires fits { Fits (slots_of core.now.pmap tags.now) core.now }
    ensures { result ≡ first_from client start (slots_of core.now.pmap tags.now) }
{
    for i in start..tags.len() {
        if has_slot(core, tags, client, i) {
            return Some(i);
        }
    }
    None
}

/// Returns where a client's first slot is sought from, `None` if it is noted that it has none.
pub fn place_of<A: Allocator>(clients: &Vec<ClientSlots, A>, client: u32) -> Option<u32>
    ensures { result ≡ place_of client clients.now.items }
{
    if client as usize >= clients.len() {
        return Some(0);
    }
    let noted = clients[client as usize];
    if noted.count == 0 {
        return None;
    }
    Some(noted.start)
}

fn start_with(ppn: u32, noted: ClientSlots) -> u32
    ensures { result ≡ start_with ppn noted }
{
    if noted.count == 0 {
        return ppn;
    }
    if noted.start <= ppn { noted.start } else { ppn }
}

fn start_without(ppn: u32, noted: ClientSlots) -> u32
    requires { ppn < MAX_PAGES }
    ensures { result ≡ start_without ppn noted }
{
    if noted.start == ppn {
        ppn + 1
    } else {
        noted.start
    }
}

/// Notes that a slot is a client's.
pub fn note_more<A: Allocator>(clients: &mut Vec<ClientSlots, A>, client: u32, ppn: u32)
    requires room { (noted_of client clients.old.items).count ≤ MAX_PAGES }
    ensures { clients.new.items ≡ with_more client ppn clients.old.items }
{
    if client as usize >= clients.len() {
        return;
    }
    let noted = clients[client as usize];
    clients[client as usize] = ClientSlots {
        count: noted.count + 1,
        start: start_with(ppn, noted),
    };
}

/// Notes that a slot is a client's no more.
pub fn note_less<A: Allocator>(clients: &mut Vec<ClientSlots, A>, client: u32, ppn: u32)
    requires some { client < length clients.old.items → 1 ≤ (noted_of client clients.old.items).count }
    requires slot { ppn < MAX_PAGES }
    ensures { clients.new.items ≡ with_less client ppn clients.old.items }
{
    if client as usize >= clients.len() {
        return;
    }
    let noted = clients[client as usize];
    clients[client as usize] = ClientSlots {
        count: noted.count - 1,
        start: start_without(ppn, noted),
    };
}

/// Notes a client's first slot.
pub fn note_start<A: Allocator>(clients: &mut Vec<ClientSlots, A>, client: u32, ppn: u32)
    ensures { clients.new.items ≡ with_start client ppn clients.old.items }
{
    if client as usize >= clients.len() {
        return;
    }
    let noted = clients[client as usize];
    clients[client as usize] = ClientSlots {
        count: noted.count,
        start: ppn,
    };
}
