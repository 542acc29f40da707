//! Links between free slots: the tag of each says which is the next.
ghost use Rattle.std.specs.Prelude.{◌≡◌, ◌+◌, ◌<◌, ◌≤◌};
ghost use Rattle.page_model.specs.declared.limits.TheConstants.{MAX_PAGES};
ghost use Rattle.lent_slots.specs.Tags.{next_free};

/// Returns the free slot after this one, which has this tag.
pub fn next_free(ppn: u32, tag: u32) -> u32
    requires { ppn < MAX_PAGES }
    ensures { result ≡ next_free ppn tag }
{
    if tag == 0 { ppn + 1 } else { tag - 1 }
}

/// Returns the tag of a slot that is put before the first of `free` free slots. Where there are none, no slot is next, and it is 0.
pub fn link_to(first: u32, free: u32) -> u32
    requires { 1 ≤ free → first < MAX_PAGES }
    ensures { 1 ≤ free → result ≡ first + 1 }
{
    if free == 0 { 0 } else { first + 1 }
}
