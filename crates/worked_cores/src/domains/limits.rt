//! Domains of the greatest sizes.
use crate::checks::holds;
use page_digest::FoldHash;
use share_domain::{Domain, DomainConfig, NO_FRAME, Slot};
use std::process::Abort;

/// As many machines and clients as there may be, of which some hundred enter.
#[test]
fn many_clients_enter(rt: HostRuntime) {
    let config = DomainConfig {
        machines: 64,
        slots: 1,
        frames: 2,
        clients: 65_536,
        salt: 7,
    };
    let mut domain = Domain::new(rt.alloc(), &config, FoldHash).expect(&rt, "there is memory");
    holds(&rt, domain.machines() == 64);
    for client in 0..300 {
        holds(&rt, domain.enter() == Some(client));
    }
    holds(&rt, domain.held_by(299) == 0);
}

/// Two clients enter, and lend three equal pages.
fn lend_three(rt: &impl Abort, domain: &mut Domain<FoldHash>) {
    holds(rt, domain.enter() == Some(0));
    holds(rt, domain.enter() == Some(1));
    for client in [1, 0, 1] {
        holds(rt, domain.lend(client, &[9; 4096]).is_ok());
    }
}

/// Looks at the first slot and the last, and at how many slots each client has.
fn look_at_three(rt: &impl Abort, domain: &Domain<FoldHash>) {
    let first = Slot { machine: 0, ppn: 0 };
    holds(rt, domain.holding(first).is_some());
    let last = Slot {
        machine: 0,
        ppn: 1_048_575,
    };
    holds(rt, domain.holding(last).is_none());
    holds(rt, domain.held_by(0) == 1);
    holds(rt, domain.held_by(1) == 2);
}

/// Both clients leave: the last to do so frees the frame.
fn leave_both(rt: &impl Abort, domain: &mut Domain<FoldHash>) {
    let mut freed = [5; 3];
    holds(rt, domain.leave(1, &mut freed) == Some(2));
    holds(rt, freed == [NO_FRAME, NO_FRAME, 5]);
    holds(rt, domain.held_by(1) == 0);
    holds(rt, domain.leave(1, &mut freed) == Some(0));
    holds(rt, domain.leave(0, &mut freed) == Some(1));
    holds(rt, freed[0] != NO_FRAME);
}

/// As many slots and frames as a machine may have. The first slot is lent first.
#[test]
fn a_million_slots(rt: HostRuntime) {
    let config = DomainConfig {
        machines: 1,
        slots: 1_048_576,
        frames: 1_048_576,
        clients: 2,
        salt: 7,
    };
    let mut domain = Domain::new(rt.alloc(), &config, FoldHash).expect(&rt, "there is memory");
    lend_three(&rt, &mut domain);
    look_at_three(&rt, &domain);
    leave_both(&rt, &mut domain);
}
