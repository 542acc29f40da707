//! Serving one request.
ghost use Rattle.std.specs.Prelude.{◌≡◌, ◌+◌, ◌<◌, [], ◌∷◌, ◌++◌, length, vec_capacity};
ghost use Rattle.page_model.specs.Steps.{step};
ghost use Rattle.share_rings.specs.Closing.{is_close};
ghost use Rattle.share_rings.specs.Ends.{end_free, IsUnanswered};
ghost use Rattle.merge_core.specs.Shown.{state_of};
ghost use Rattle.merge_machine.specs.Ahead.{GaveOne};
ghost use Rattle.page_model.specs.declared.limits.TheConstants.{MAX_ENTRIES};

use merge_core::Core;
use page_digest::PageHash;
use page_model::{Entry, Request};
use share_rings::MergerEnd;
use std::alloc::Allocator;

/// Applies a request taken from this end, answers it and puts it in the journal.
pub(crate) fn serve_one<H: PageHash, A: Allocator>(
    end: &mut MergerEnd<A>,
    journal: &mut Vec<Entry, A>,
    core: &mut Core<H, A>,
    guest: u8,
    request: Request,
)
    requires slot { 0 < end_free end.old }
    requires unanswered { IsUnanswered end.old (is_close request) }
    requires room { length journal.old.items < vec_capacity journal.old }
    requires guest { guest < length (state_of core.old).guests }
    requires entries { core.old.entries < MAX_ENTRIES }
    ensures end { GaveOne (step H.hash_of (state_of core.old) guest request).verdict end.old end.new }
    ensures journal { journal.new.items ≡ journal.old.items ++ record { guest = guest; request = request } ∷ [] }
    ensures capacity { vec_capacity journal.new ≡ vec_capacity journal.old }
    ensures memory { state_of core.new ≡ (step H.hash_of (state_of core.old) guest request).state }
    ensures entries { core.new.entries ≡ core.old.entries + 1 }
    ensures guests { length (state_of core.new).guests ≡ length (state_of core.old).guests }
{
    answer_one(end, core, guest, &request, &[]);
    journal.push_reserved(Entry { guest, request });
}

/// Applies a request taken from this end, and answers it. The requests that come next are searched for pages to hash
/// together with the one that it proposes.
pub(crate) fn answer_one<H: PageHash, A: Allocator>(
    end: &mut MergerEnd<A>,
    core: &mut Core<H, A>,
    guest: u8,
    request: &Request,
    next: &[Entry],
)
    requires slot { 0 < end_free end.old }
    requires unanswered { IsUnanswered end.old (is_close request.now) }
    requires guest { guest < length (state_of core.old).guests }
    requires entries { core.old.entries < MAX_ENTRIES }
    ensures end { GaveOne (step H.hash_of (state_of core.old) guest request.now).verdict end.old end.new }
    ensures memory { state_of core.new ≡ (step H.hash_of (state_of core.old) guest request.now).state }
    ensures entries { core.new.entries ≡ core.old.entries + 1 }
    ensures guests { length (state_of core.new).guests ≡ length (state_of core.old).guests }
{
    end.give(core.apply_ahead(guest, request, next));
}
