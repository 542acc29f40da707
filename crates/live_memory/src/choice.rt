//! Which mappings of a process are read.
ghost use Rattle.std.specs.Prelude.{◌≡◌, IfOk};
ghost use Rattle.std.specs.List.{list_any};
ghost use Rattle.live_memory.specs.Choices.{chosen, has_frames, is_chosen, is_wanted, offers};
ghost use Rattle.live_memory.specs.Ranges.{AreWhole, HaveWhole};

use crate::WritableMapping;
use memory_images::Segment;
use std::alloc::{AllocError, Allocator};

/// Which of a process's mappings are read, of those that are no file's and can be written. None is the one by which the library of
/// `pageshare-host` reads frames.
#[derive(Clone, Copy, Debug, PartialEq, Eq)]
pub enum MemoryChoice {
    /// Those that the process offered for sharing. Where it offered none, or `pageshare-host` shares them already, those that are
    /// the process's own, and those that show frames.
    Offered,
    /// All of them.
    All,
    /// Those that show frames of `pageshare-host`.
    Lent,
}

/// Whether one of the mappings is offered.
fn is_any_offered(mappings: &[WritableMapping]) -> bool
    ensures { result ≡ list_any (λ mapping. mapping.is_offered) mappings.now }
{
    for mapping in mappings {
        if mapping.is_offered {
            return true;
        }
    }
    false
}

/// Whether frames of `pageshare-host` are shown or read by a mapping.
fn has_frames(mapping: &WritableMapping) -> bool
    ensures { result ≡ has_frames mapping.now }
{
    mapping.shows_frames || mapping.reads_frames
}

/// Whether one of the mappings has such frames.
fn is_any_shared(mappings: &[WritableMapping]) -> bool
    ensures { result ≡ list_any has_frames mappings.now }
{
    for mapping in mappings {
        if has_frames(mapping) {
            return true;
        }
    }
    false
}

/// Whether a process offered mappings, and `pageshare-host` doesn't share its memory.
fn offers(mappings: &[WritableMapping]) -> bool
    ensures { result ≡ offers mappings.now }
{
    is_any_offered(mappings) && !is_any_shared(mappings)
}

/// Whether a mapping is one of those that are asked for, if it is the guest's.
fn is_wanted(choice: MemoryChoice, offers: bool, mapping: &WritableMapping) -> bool
    ensures { result ≡ is_wanted choice offers mapping.now }
{
    match choice {
        MemoryChoice::All => true,
        MemoryChoice::Lent => mapping.shows_frames,
        MemoryChoice::Offered => {
            if offers {
                mapping.is_offered
            } else {
                mapping.is_anonymous || mapping.shows_frames
            }
        }
    }
}

fn is_chosen(choice: MemoryChoice, offers: bool, mapping: &WritableMapping) -> bool
    ensures { result ≡ is_chosen choice offers mapping.now }
{
    !mapping.reads_frames && is_wanted(choice, offers, mapping)
}

/// Returns where the pages of the chosen mappings lie.
pub(crate) fn chosen_segments<A: Allocator>(
    alloc: A,
    choice: MemoryChoice,
    mappings: &[WritableMapping],
) -> Result<Vec<Segment, A>, AllocError>
    requires whole { HaveWhole mappings.now }
    ensures chosen { IfOk result (λ segments. segments.items ≡ chosen choice mappings.now) }
    ensures whole { IfOk result (λ segments. AreWhole segments.items) }
{
    let offers = offers(mappings);
    let mut segments = Vec::new(alloc);
    for mapping in mappings {
        if is_chosen(choice, offers, mapping) {
            segments.push(mapping.segment)?;
        }
    }
    Ok(segments)
}
