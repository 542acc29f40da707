//! Making machines.
ghost use Rattle.std.specs.Prelude.{◌≡◌, [], IfOk, MatchResult};
ghost use Rattle.merge_machine.specs.Limits.{IsMachine, NoMachineFor, numbers_of};
ghost use Rattle.merge_machine.specs.Opened.{IsFreshMachine};
ghost use Rattle.watched_machine.specs.Lists.{published};
ghost use Rattle.watched_machine.specs.View.{merger_in, publisher_in};

use crate::Publisher;
use crate::merger::Merger;
use merge_machine::{Config, Fault, open_machine};
use page_digest::PageHash;
use share_rings::Port;
use std::alloc::Allocator;
use std::sync::Wait;

/// What makes machines whose reports are published. It has no value: a machine comes in two parts, whose owners may be different
/// threads.
pub struct Machine;

impl Machine {
    /// Makes a machine before its first request: its merger, and a list of ports in which item i is guest i's. The merger has
    /// published nothing, and can have 8 watches.
    ///
    /// All memory of the machine is allocated here. It takes `rt` because `left_right` shows its first value once. It waits for
    /// nobody, since there is no watch yet.
    ///
    /// # Errors
    ///
    /// The first cause that holds, in the order of [`Fault`].
    pub fn new<R: Wait, H: PageHash + Drop, A: Allocator + Copy>(
        rt: &R,
        alloc: A,
        config: &Config<A>,
        hash: H,
    ) -> Result<(Merger<H, A>, Vec<Port<A>, A>), Fault>
        ensures machine { IfOk result (λ (merger, ports). IsFreshMachine (numbers_of config.now) (merger_in merger) ports.items) }
        ensures reports { IfOk result (λ (merger, _). published (publisher_in merger) ≡ []) }
        ensures fault { MatchResult result (λ _. IsMachine config.now) (λ fault. NoMachineFor config.now fault) }
    {
        let (merger, ports) = open_machine(alloc, config, hash)?;
        match Publisher::new(rt, alloc) {
            Ok(publisher) => {
                let merger = Merger { merger, publisher };
                Ok((merger, ports))
            }
            Err(_) => Err(Fault::OutOfMemory),
        }
    }
}
