//! Laws of digests that are merged, about the definitions alone: what a merge counts of guests' pages is what a census counts of them.
//!
//! They hold for every source of pages. The functions' bodies are empty: the contract is all there is.
#![tactic(auto)]

ghost use Rattle.fleet_laws.specs.Merges.{DigestLaw, MergeLaw};
ghost use Rattle.fleet_laws.specs.Texts.{TextLaw};

use memory_pages::PageSource;
use std::alloc::Allocator;

/// *If different contents have different digests, a merge of whole digests returns the numbers of a census of the pages*: of each
/// guest, in total, and class for class.
pub fn digest_law<S: PageSource>()
    ensures { DigestLaw S.pages }
{}

/// So `merge` of such digests returns the numbers of a census, and its sample is 1.
pub fn merge_law<S: PageSource, A: Allocator>()
    ensures { MergeLaw A S.pages }
{}

/// *From pages over texts to a census*: let different contents have different digests, and let `write_digests` write each text
/// from a result of `digest_pages` with sample 1. Then `merge` of the texts returns the numbers of a census of the pages that
/// were read. If the sources are steady, these are the sources' pages.
pub fn text_law<S: PageSource, A: Allocator, B: Allocator>()
    ensures { TextLaw A B S.is_steady S.pages }
{}
