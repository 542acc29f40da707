//! The serial order of scripts, one turn at a time.
ghost use Rattle.merge_machine.specs.Scripts.{with_close};
ghost use Rattle.std.specs.Prelude.{◌≡◌, ◌+◌, ◌≤◌, ◌++◌, drop, map, length, vec_capacity};
ghost use Rattle.journal_text.specs.Texts.{AreBelow};
ghost use Rattle.script_text.specs.Order.{first_of, firsts, longest, left_of};
ghost use Rattle.script_text.specs.Views.{lists_of};
ghost use Rattle.page_model.specs.declared.limits.TheConstants.{MAX_GUESTS};

use page_model::{Entry, Request};
use std::alloc::Allocator;

/// Returns what a guest asks for in a turn, counted from 0; `None` if it has ended before.
fn request_at<A: Allocator>(script: &Vec<Request, A>, turn: usize) -> Option<Request>
    ensures { result ≡ first_of (drop turn (with_close script.now.items)) }
{
    if turn < script.len() {
        return Some(script[turn].clone().unwrap());
    }
    if turn == script.len() {
        return Some(Request::Close);
    }
    None
}

/// Appends what each guest asks for in a turn, guest 0 first, to a list with room for an entry of each.
pub(crate) fn push_turn<A: Allocator>(
    entries: &mut Vec<Entry, A>,
    scripts: &[Vec<Request, A>],
    turn: usize,
)
    requires guests { length scripts.now ≤ MAX_GUESTS }
    requires below { AreBelow (length scripts.now) entries.old.items }
    requires room { length entries.old.items + length scripts.now ≤ vec_capacity entries.old }
    ensures items { entries.new.items ≡ entries.old.items ++ firsts 0 (left_of turn (lists_of scripts.now)) }
    ensures below { AreBelow (length scripts.now) entries.new.items }
    ensures few { length entries.new.items ≤ length entries.old.items + length scripts.now }
    ensures capacity { vec_capacity entries.new ≡ vec_capacity entries.old }
{
    for guest in 0..scripts.len() {
        if let Some(request) = request_at(&scripts[guest], turn) {
            let guest = guest as u8;
            entries.push_reserved(Entry { guest, request });
        }
    }
}

/// Returns how many turns the scripts take, including their closes.
pub(crate) fn turns_of<A: Allocator>(scripts: &[Vec<Request, A>]) -> usize
    ensures { result ≡ longest (map with_close (lists_of scripts.now)) }
{
    let mut most = 0;
    for script in scripts {
        most = most.max(script.len() + 1);
    }
    most
}
