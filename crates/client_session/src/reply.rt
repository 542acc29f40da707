//! Which loans a client takes.
ghost use Rattle.std.specs.Prelude.{◌≡◌};
ghost use Rattle.std.specs.List.{list_all};
ghost use Rattle.client_session.specs.Sessions.{is_slot, is_right, are_right};

use host_messages::Lent;

/// One more than the greatest of a slot's upper 32 bits, and of its lower ones.
pub const MAX_SLOT_MACHINES: u64 = 64;

pub const MAX_SLOT_PAGES: u64 = 67_108_864;

// In place of a frame's number: the page wasn't lent.
const NO_FRAME: u32 = u32::MAX;

// Whether a number can be a slot's.
fn is_slot(slot: u64) -> bool
    ensures { result ≡ is_slot slot }
{
    slot / 4_294_967_296 < MAX_SLOT_MACHINES && slot % 4_294_967_296 < MAX_SLOT_PAGES
}

// Whether a loan names one of so many frames and a slot, or none.
fn is_right(frames: u32, lent: &Lent) -> bool
    ensures { result ≡ is_right frames lent.now }
{
    lent.frame == NO_FRAME || (lent.frame < frames && is_slot(lent.slot))
}

/// Whether all loans do.
pub(crate) fn are_right(frames: u32, loans: &[Lent]) -> bool
    ensures { result ≡ are_right frames loans.now }
{
    loans.iter().all(|lent| is_right(frames, lent))
}
