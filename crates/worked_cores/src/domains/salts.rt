//! How often the pages of a domain are hashed.
use crate::checks::holds;
use crate::domains::counted::Counted;
use share_domain::{Domain, DomainConfig, Slot};
use std::alloc::Global;
use std::process::Abort;
use std::sync::atomic::{AtomicU32, Ordering};

/// Lends pages of one byte each, in a domain of one machine. Returns how often pages were hashed.
fn hashed(rt: &impl Abort, alloc: Global, bytes: &[u8]) -> u32 {
    let calls = AtomicU32::new(0);
    let config = DomainConfig {
        machines: 1,
        slots: 8,
        frames: 4,
        clients: 1,
        salt: 7,
    };
    let mut domain = Domain::new(alloc, &config, Counted(&calls)).expect(rt, "there is memory");
    holds(rt, domain.enter() == Some(0));
    for byte in bytes {
        holds(rt, domain.lend(0, &[*byte; 4096]).is_ok());
    }
    let slot = Slot { machine: 0, ppn: 0 };
    holds(rt, domain.release(0, slot).is_ok());
    calls.load(Ordering::SeqCst)
}

/// Each page that is lent is hashed once, by the domain: its machine has the same salt, and takes the hash over. A machine with
/// another salt would hash it again.
#[test]
fn each_page_is_hashed_once(rt: HostRuntime) {
    holds(&rt, hashed(&rt, rt.alloc(), &[5]) == 1);
    holds(&rt, hashed(&rt, rt.alloc(), &[5, 5]) == 2);
    holds(&rt, hashed(&rt, rt.alloc(), &[5, 6, 5, 6, 5]) == 5);
}
