//! The parts of a new domain.
ghost use Rattle.std.specs.Prelude.{◌≡◌, replicate, IfOk};
ghost use Rattle.lent_slots.specs.Totals.{empty_machine};
ghost use Rattle.share_domain.specs.Made.{AreLimits, AreFree};

use crate::client::Presence;
use crate::config::DomainConfig;
use lent_slots::LentSlots;
use machine_frames::Frames;
use page_digest::PageHash;
use std::alloc::{AllocError, Allocator};

/// Makes frames for each machine of a domain, all of them free.
pub fn new_frames<A: Allocator + Clone>(
    alloc: A,
    config: &DomainConfig,
) -> Result<Vec<Frames<A>, A>, AllocError>
    requires { AreLimits config.now }
    ensures { IfOk result (λ frames. AreFree config.now frames.items) }
{
    let mut all = Vec::with_capacity(alloc.clone()?, config.machines as usize)?;
    for _ in 0..config.machines {
        match Frames::new(alloc.clone()?, config.frames) {
            Err(_) => return Err(AllocError),
            Ok(frames) => all.push_reserved(frames),
        }
    }
    Ok(all)
}

/// Makes a machine for each of these frames.
pub(crate) fn new_machines<H: PageHash + Drop + Copy, A: Allocator + Clone>(
    alloc: A,
    config: &DomainConfig,
    hash: H,
    frames: Vec<Frames<A>, A>,
) -> Result<Vec<LentSlots<H, A>, A>, AllocError>
    requires limits { AreLimits config.now }
    requires frames { AreFree config.now frames.items }
    ensures { IfOk result (λ machines. machines.items ≡ replicate config.now.machines (empty_machine config.now.slots config.now.frames)) }
{
    let mut machines = Vec::with_capacity(alloc.clone()?, config.machines as usize)?;
    for own in frames {
        machines.push_reserved(LentSlots::new(
            alloc.clone()?,
            config.slots,
            config.clients,
            config.salt,
            hash,
            own,
        )?);
    }
    Ok(machines)
}

/// Returns a table of `count` free client numbers.
pub(crate) fn new_clients<A: Allocator>(
    alloc: A,
    count: u32,
) -> Result<Vec<Presence, A>, AllocError>
    ensures { IfOk result (λ clients. clients.items ≡ replicate count Presence.Out) }
{
    let mut clients = Vec::with_capacity(alloc, count as usize)?;
    for _ in 0..count {
        clients.push_reserved(Presence::Out);
    }
    Ok(clients)
}
