//! What was counted, with the names of the images.
ghost use Rattle.std.specs.Prelude.{◌≡◌, IfOk, length, map, min, take, vec_len};

use page_census::{CopiesClass, GuestNumbers, TotalNumbers};
use std::alloc::{AllocError, Allocator};

/// A guest: the path of its image as given, its salt, and what was counted of its pages.
#[derive(Clone, Copy)]
pub struct GuestLine<'a> {
    pub image: &'a str,
    pub salt: u32,
    pub numbers: GuestNumbers,
}

/// What was counted of the pages of all guests.
#[derive(Clone, Copy)]
pub struct Estimate<'a> {
    /// Each guest, guest 0 first.
    pub guests: &'a [GuestLine<'a>],
    /// The numbers in total.
    pub total: TotalNumbers,
    /// How many contents have how many copies, in classes that rise.
    pub copies: &'a [CopiesClass],
}

/// Makes the guests of these images, salts and numbers; as many as the shortest of the three lists has.
pub fn guest_lines<'a, A: Allocator>(
    alloc: A,
    images: &[&'a str],
    salts: &[u32],
    numbers: &[GuestNumbers],
) -> Result<Vec<GuestLine<'a>, A>, AllocError>
    ensures count { IfOk result (λ lines. vec_len lines ≡ min (length images.now) (min (length salts.now) (length numbers.now))) }
    ensures images { IfOk result (λ lines. map (λ line. line.image) lines.items ≡ take (vec_len lines) images.now) }
    ensures salts { IfOk result (λ lines. map (λ line. line.salt) lines.items ≡ take (vec_len lines) salts.now) }
    ensures numbers { IfOk result (λ lines. map (λ line. line.numbers) lines.items ≡ take (vec_len lines) numbers.now) }
{
    let count = images.len().min(salts.len().min(numbers.len()));
    let mut lines = Vec::with_capacity(alloc, count)?;
    for n in 0..count {
        lines.push_reserved(GuestLine {
            image: images[n],
            salt: salts[n],
            numbers: numbers[n],
        });
    }
    Ok(lines)
}
