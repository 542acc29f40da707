//! Taking a round's requests.
ghost use Rattle.std.specs.Prelude.{◌≡◌, ◌+◌, ◌<◌, ◌≤◌, length, replicate, vec_capacity};
ghost use Rattle.merge_machine.specs.Taking.{AreExhausted, Took, TookSo, Visits};
ghost use Rattle.merge_machine.specs.declared.limits.TheConstants.{MAX_ROUND};
ghost use Rattle.page_model.specs.declared.limits.TheConstants.{MAX_GUESTS};

use page_model::{Entry, MAX_GUESTS};
use share_rings::MergerEnd;
use std::alloc::Allocator;

/// Takes requests into the journal, one at each visit to a guest, guest by guest in turn, until there are `most` of them or
/// a turn finds none. A slot is known to be free for the verdict of each.
pub(crate) fn take_requests<A: Allocator>(
    ends: &mut Vec<MergerEnd<A>, A>,
    journal: &mut Vec<Entry, A>,
    most: usize,
)
    requires few { length ends.old.items ≤ MAX_GUESTS }
    requires room { length journal.old.items + most ≤ vec_capacity journal.old }
    requires most { most ≤ MAX_ROUND }
    ensures took { Took most ends.old.items ends.new.items journal.old.items journal.new.items }
    ensures capacity { vec_capacity journal.new ≡ vec_capacity journal.old }
{
    // How many verdicts each guest is owed.
    let mut owed = no_debts();
    let full = journal.len() + most;
    for _turn in 0..most + 1 {
        let before = journal.len();
        take_turn(ends, journal, &mut owed, full);
        if journal.len() == before {
            return;
        }
    }
}

/// Visits each guest once, guest 0 first, until the journal has `full` entries.
fn take_turn<A: Allocator>(
    ends: &mut Vec<MergerEnd<A>, A>,
    journal: &mut Vec<Entry, A>,
    owed: &mut [u32; MAX_GUESTS],
    full: usize,
)
    requires few { length ends.old.items ≤ MAX_GUESTS }
    requires within { length journal.old.items ≤ full }
    requires room { full ≤ vec_capacity journal.old }
    ensures took { TookSo ends.old.items ends.new.items journal.old.items journal.new.items owed.old owed.new }
    ensures within { length journal.new.items ≤ full }
    ensures exhausted { length journal.new.items ≡ length journal.old.items → length journal.old.items < full
        → AreExhausted (length ends.old.items) owed.new ends.new.items }
    ensures owed { length owed.new ≡ MAX_GUESTS }
    ensures capacity { vec_capacity journal.new ≡ vec_capacity journal.old }
{
    for guest in 0..ends.len() {
        if journal.len() >= full {
            return;
        }
        owed[guest] += visit_guest(&mut ends[guest], journal, guest as u8, owed[guest]);
    }
}

/// Takes a guest's next request into the journal, if a slot is free beyond those for the verdicts that the guest is owed.
/// Returns how many it took.
fn visit_guest<A: Allocator>(
    end: &mut MergerEnd<A>,
    journal: &mut Vec<Entry, A>,
    guest: u8,
    owed: u32,
) -> u32
    requires { length journal.old.items < vec_capacity journal.old }
    ensures visits { Visits guest owed result end.old end.new journal.old.items journal.new.items }
    ensures capacity { vec_capacity journal.new ≡ vec_capacity journal.old }
{
    if end.free() <= owed {
        return 0;
    }
    match end.take() {
        None => 0,
        Some(request) => {
            journal.push_reserved(Entry { guest, request });
            1
        }
    }
}

/// Returns the verdicts owed at first: none to any guest.
fn no_debts() -> [u32; MAX_GUESTS]
    ensures { result ≡ replicate MAX_GUESTS 0 }
{
    [0; MAX_GUESTS]
}
