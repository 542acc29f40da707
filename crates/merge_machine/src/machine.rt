//! Making a machine.
ghost use Rattle.std.specs.Prelude.{◌≡◌, All, length, IfOk, MatchResult};
ghost use Rattle.merge_machine.specs.Kept.{end_names, port_names};
ghost use Rattle.merge_machine.specs.Fresh.{IsFreshEnd, IsFreshPort};
ghost use Rattle.merge_machine.specs.Limits.{IsMachine, NoMachineFor, numbers_of};
ghost use Rattle.merge_machine.specs.Opened.{IsFreshMachine};
ghost use Rattle.share_rings.specs.Faults.{IsCapacity};

use crate::config::{CheckedConfig, Config, Fault};
use crate::merger::Merger;
use merge_core::Core;
use page_digest::PageHash;
use share_rings::{MergerEnd, Port, open_pair};
use std::alloc::{AllocError, Allocator};

/// Makes a machine before its first request: its merger, and a list of ports in which item i is guest i's.
///
/// All memory of the machine is allocated here.
pub fn open_machine<H: PageHash + Drop, A: Allocator + Copy>(
    alloc: A,
    config: &Config<A>,
    hash: H,
) -> Result<(Merger<H, A>, Vec<Port<A>, A>), Fault>
    ensures machine { IfOk result (λ (merger, ports). IsFreshMachine (numbers_of config.now) merger ports.items) }
    ensures fault { MatchResult result (λ _. IsMachine config.now) (λ fault. NoMachineFor config.now fault) }
{
    let checked = config.check()?;
    match open_checked_machine(alloc, &checked, hash) {
        Err(_) => Err(Fault::OutOfMemory),
        Ok(machine) => Ok(machine),
    }
}

/// Makes a machine as [`open_machine`] does, for a configuration whose limits were checked (see [`Config::check`]).
pub fn open_checked_machine<H: PageHash + Drop, A: Allocator + Copy>(
    alloc: A,
    config: &CheckedConfig<'_>,
    hash: H,
) -> Result<(Merger<H, A>, Vec<Port<A>, A>), AllocError>
    ensures { IfOk result (λ (merger, ports). IsFreshMachine config.now merger ports.items) }
{
    let shape = config.shape();
    let limit = config.journal();
    let core = Core::with_shape(alloc, shape, hash)?;
    let (ends, ports) = new_pairs(alloc, shape.pages().len(), config.ring())?;
    let journal = Vec::with_capacity(alloc, limit as usize)?;
    let merger = Merger {
        ends,
        journal,
        core,
        limit,
    };
    Ok((merger, ports))
}

/// Makes a pair of rings of this capacity for each guest.
fn new_pairs<A: Allocator + Copy>(
    alloc: A,
    guests: usize,
    ring: u32,
) -> Result<(Vec<MergerEnd<A>, A>, Vec<Port<A>, A>), AllocError>
    requires ring { IsCapacity ring }
    ensures pairs { IfOk result (λ (ends, ports). port_names ports.items ≡ end_names ends.items) }
    ensures guests { IfOk result (λ (ends, ports). (length ends.items ≡ guests) × (length ports.items ≡ guests)) }
    ensures ports { IfOk result (λ (ends, ports). All (IsFreshPort ring) ports.items) }
    ensures ends { IfOk result (λ (ends, ports). All (IsFreshEnd ring) ends.items) }
{
    let mut ends = Vec::with_capacity(alloc, guests)?;
    let mut ports = Vec::with_capacity(alloc, guests)?;
    for _guest in 0..guests {
        let (port, end) = open_pair(alloc, ring)?;
        ends.push_reserved(end);
        ports.push_reserved(port);
    }
    Ok((ends, ports))
}
