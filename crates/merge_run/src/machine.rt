//! Making machines.
ghost use Rattle.std.specs.Prelude.{IfOk, MatchResult};
ghost use Rattle.merge_run.specs.View.{IsFreshMachine, IsMachine, NoMachineFor, numbers_of};

use merge_machine::{Config, Fault, Merger, open_machine};
use page_digest::PageHash;
use share_rings::Port;
use std::alloc::Allocator;

/// What makes machines. It has no value: a machine comes in two parts, whose owners may be different threads.
pub struct Machine;

impl Machine {
    /// Makes a machine before its first request: its merger, and a list of ports in which item i is guest i's.
    ///
    /// All memory of the machine is allocated here.
    ///
    /// # Errors
    ///
    /// The first cause that holds, in the order of [`Fault`].
    pub fn new<H: PageHash + Drop, A: Allocator + Copy>(
        alloc: A,
        config: &Config<A>,
        hash: H,
    ) -> Result<(Merger<H, A>, Vec<Port<A>, A>), Fault>
        ensures machine { IfOk result (λ (merger, ports). IsFreshMachine (numbers_of config.now) merger ports.items) }
        ensures fault { MatchResult result (λ _. IsMachine config.now) (λ fault. NoMachineFor config.now fault) }
    {
        open_machine(alloc, config, hash)
    }
}
