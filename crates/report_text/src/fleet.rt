//! What was counted, with what the digests say of their guests.
ghost use Rattle.std.specs.Prelude.{◌≡◌, IfOk, length, map, min, take, vec_len};

use crate::report::Sampling;
use digest_text::DigestHead;
use fleet_census::{FleetClass, FleetGuest, FleetTotal};
use std::alloc::{AllocError, Allocator};

/// A guest: what each line of its digest begins with, unless there is no line, and what was counted of its pages.
#[derive(Clone, Copy)]
pub struct FleetLine<'a> {
    pub head: Option<&'a DigestHead>,
    pub numbers: FleetGuest,
}

/// What was counted of the pages of all guests.
#[derive(Clone, Copy)]
pub struct Fleet<'a> {
    /// Of how many contents one is kept, besides that of zeros.
    pub sample: u32,
    /// Each guest, in the digests' order.
    pub guests: &'a [FleetLine<'a>],
    /// The numbers in total.
    pub total: FleetTotal,
    /// How many contents have how many copies, in classes that rise.
    pub copies: &'a [FleetClass],
}

/// Makes the guests of these heads and numbers; as many as the shorter of the two lists has.
pub fn fleet_lines<'a, A: Allocator>(
    alloc: A,
    heads: &[Option<&'a DigestHead>],
    numbers: &[FleetGuest],
) -> Result<Vec<FleetLine<'a>, A>, AllocError>
    ensures count { IfOk result (λ lines. vec_len lines ≡ min (length heads.now) (length numbers.now)) }
    ensures heads { IfOk result (λ lines. map (λ line. line.head) lines.items ≡ take (vec_len lines) heads.now) }
    ensures numbers { IfOk result (λ lines. map (λ line. line.numbers) lines.items ≡ take (vec_len lines) numbers.now) }
{
    let count = heads.len().min(numbers.len());
    let mut lines = Vec::with_capacity(alloc, count)?;
    for n in 0..count {
        lines.push_reserved(FleetLine {
            head: heads[n],
            numbers: numbers[n],
        });
    }
    Ok(lines)
}

impl Fleet<'_> {
    /// Returns the sample, unless all contents were kept.
    pub(crate) fn sampling(&self) -> Option<Sampling> {
        if self.sample <= 1 {
            return None;
        }
        let frames = self.total.frames;
        Some(Sampling {
            sample: self.sample,
            kept: frames.zeros.saturating_add(frames.others),
        })
    }
}

impl<'a> FleetLine<'a> {
    /// Returns the guest's name, if its digest has a line.
    pub(crate) fn name(&self) -> Option<&'a str> {
        let head = self.head?;
        // A name has only characters of ASCII.
        str::from_utf8(head.guest.as_bytes()).ok()
    }

    /// Returns the guest's salt, if its digest has a line.
    pub(crate) fn salt(&self) -> Option<u32> {
        Some(self.head?.salt)
    }
}
