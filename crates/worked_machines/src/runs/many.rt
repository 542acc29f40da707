//! The most guests that there can be, with 256,000 requests together.
use crate::checks::equal;
use crate::runs::makes::{Ask, Numbers};
use crate::runs::plain::replayed;
use merge_run::OpenGate;
use std::alloc::{AllocError, Global};

const GUESTS: u32 = 64;

const REQUESTS: u32 = 4000;

const RUNS: u32 = 3;

const PAGES: u32 = 4;

// Far fewer frames than pages, so that a store may find none free.
const FRAMES: u32 = 60;

const RING: u32 = 8;

/// Returns request number n of a guest, page after page. Few contents are stored, so pages of different guests are
/// often equal.
fn ask(guest: u32, n: u32) -> Ask {
    let turn = n / 8;
    let ppn = turn % PAGES;
    let byte = (turn.wrapping_mul(7).wrapping_add(guest) % 20) as u8;
    match n % 8 {
        0 => Ask::Store(ppn, byte),
        2 | 5 => Ask::Propose(ppn),
        4 if turn % 3 == 0 => Ask::Store(ppn, byte / 2),
        6 if turn % 5 == 0 => Ask::Release(ppn),
        7 => Ask::Count,
        _ => Ask::Load(ppn),
    }
}

fn script(alloc: Global, guest: u32) -> Result<Vec<Ask>, AllocError> {
    let mut script = Vec::new(alloc);
    for n in 0..REQUESTS {
        script.push(ask(guest, n))?;
    }
    Ok(script)
}

fn scripts(alloc: Global) -> Result<Vec<Vec<Ask>>, AllocError> {
    let mut scripts = Vec::new(alloc);
    for guest in 0..GUESTS {
        scripts.push(script(alloc, guest)?)?;
    }
    Ok(scripts)
}

fn slices(alloc: Global, scripts: &[Vec<Ask>]) -> Result<Vec<&[Ask]>, AllocError> {
    let mut slices = Vec::new(alloc);
    for script in scripts {
        slices.push(script.as_slice())?;
    }
    Ok(slices)
}

/// Returns one salt for guests of even numbers, and another for those of odd numbers.
fn salts() -> [u32; 64] {
    let mut salts = [0u32; 64];
    for guest in (0..64usize).step_by(2) {
        salts[guest] = 1;
    }
    salts
}

// Each run ends, though there are many more threads than processors.
#[test]
fn most_guests(rt: HostRuntime) {
    let journal = GUESTS * (REQUESTS + 1);
    let numbers = Numbers {
        frames: FRAMES,
        pages: &[PAGES; 64],
        salts: &salts(),
        ring: RING,
        journal,
    };
    let scripts = scripts(rt.alloc()).expect(&rt, "memory");
    let asks = slices(rt.alloc(), &scripts).expect(&rt, "memory");
    for _ in 0..RUNS {
        let ran = replayed(&rt, rt.alloc(), &numbers, &asks, &OpenGate);
        equal(&rt, ran.journal, journal as usize);
    }
}
