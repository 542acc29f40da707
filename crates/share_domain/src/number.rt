//! Slots and frames as numbers.
ghost use Rattle.std.specs.Prelude.{◌≡◌, ◌<◌};
ghost use Rattle.share_domain.specs.Numbers.{frame_number, slot_by, slot_number};
ghost use Rattle.share_domain.specs.declared.holding.Slot.{Slot};
ghost use Rattle.share_domain.specs.declared.number.TheConstants.{SLOTS_APART};

use crate::holding::Slot;

/// How far apart the numbers of slots of two machines are: a slot's number is its machine times this plus its page.
pub const SLOTS_APART: u64 = 4_294_967_296;

/// The number that says that there is no frame. No frame has it.
pub const NO_FRAME: u32 = u32::MAX;

/// Returns the frame's number, or [`NO_FRAME`] if there is none.
pub fn frame_number(frame: Option<u32>) -> u32
    ensures { result ≡ frame_number frame }
{
    match frame {
        None => NO_FRAME,
        Some(frame) => frame,
    }
}

/// Returns the number of a slot.
pub fn slot_number(slot: Slot) -> u64
    ensures { result ≡ slot_number slot }
{
    u64::from(slot.machine) * SLOTS_APART + u64::from(slot.ppn)
}

/// Returns the slot with this number.
pub fn slot_by(number: u64) -> Slot
    ensures { result ≡ slot_by number }
{
    Slot {
        machine: (number / SLOTS_APART) as u32,
        ppn: (number % SLOTS_APART) as u32,
    }
}

/// The number of a slot names this slot.
pub fn slots_law()
    ensures { (slot : Slot) → slot.ppn < SLOTS_APART → slot_by (slot_number slot) ≡ slot }
{}
