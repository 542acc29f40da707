//! A domain whose frames are given for one machine after the other.
use crate::checks::holds;
use crate::domains::frames::{returned_frames, three_frames};
use page_digest::FoldHash;
use share_domain::{Domain, DomainConfig, GivenFrames};

const CONFIG: DomainConfig = DomainConfig {
    machines: 2,
    slots: 5,
    frames: 3,
    clients: 2,
    salt: 7,
};

/// Returns the frame of the first page that each machine gets.
fn first_frames(domain: &mut Domain<FoldHash>) -> [Option<u32>; 2] {
    let mut first = [None; 2];
    for byte in 0..16 {
        if let Ok(loan) = domain.lend(0, &[byte; 4096]) {
            let m = loan.slot.machine as usize;
            if m < 2 && first[m].is_none() {
                first[m] = Some(loan.frame);
            }
        }
    }
    first
}

/// Machine 0 has frames 0 to 2, and machine 1 frames 3 to 5. Each takes its lowest first, not the one that was given back last.
#[test]
fn each_machine_has_the_frames_that_were_given_for_it(rt: HostRuntime) {
    let mut given = GivenFrames::new(rt.alloc(), 2, 3).expect(&rt, "there is memory");
    given.add(three_frames(&rt, rt.alloc()));
    given.add(returned_frames(&rt, rt.alloc()));
    let mut domain = Domain::with_frames(rt.alloc(), &CONFIG, FoldHash, given.into_frames()).expect(
        &rt,
        "there is memory",
    );
    holds(&rt, domain.enter() == Some(0));
    let first = first_frames(&mut domain);
    holds(&rt, first[0] == Some(0));
    holds(&rt, first[1] == Some(3));
}
