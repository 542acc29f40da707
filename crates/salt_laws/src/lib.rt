//! Laws of salts: guests with one salt get the verdicts that they would get without the guests that have other salts.
//!
//! They hold for every journal, machine and hash. The functions' bodies are empty: the contract is all there is.
#![tactic(auto)]

ghost use Rattle.std.specs.Prelude.{◌≡◌, [], ◌∷◌};
ghost use Rattle.page_model.specs.Journal.{answers};
ghost use Rattle.page_model.specs.Proposals.{first_two};
ghost use Rattle.salt_laws.specs.Apart.{VerdictsAsApart, PagesAsApart, AreUndisturbed, of_salt, keys_proposed};
ghost use Rattle.salt_laws.specs.Examples.{two_salts, machine_of, other_keys, same_key, no_offers};

use page_model::{Entry, Verdict};

/// *Salts keep guests apart.* Leave out of a journal the entries of all guests with other salts, and keep the machine. Then
/// each guest with this salt gets the same verdicts, but for the numbers of a report, and has the same pages at the end.
///
/// That holds if in the whole journal none of these guests was refused a frame. Further, no guest with another salt may have
/// proposed a page under a key under which one of these did (`AreUndisturbed`).
pub fn salts_apart_law(entries: &[Entry], salt: u32)
    ensures verdicts { VerdictsAsApart entries.now salt }
    ensures pages { PagesAsApart entries.now salt }
{}

/// There are journals of which `salts_apart_law` speaks: one in which guests with two salts each store and propose a page.
pub fn keys_apart()
    ensures undisturbed { AreUndisturbed first_two (machine_of 2) 1 two_salts other_keys }
    ensures whole { answers first_two (machine_of 2) 1 other_keys ≡ Verdict.Mapped ∷ Verdict.Hinted ∷ [] }
{}

/// Why keys must differ: a proposal is `Ineligible` only because a guest with another salt proposed a page under the same
/// key, though the hashes differ. Without that guest it is `Hinted`.
pub fn clash_across_salts()
    ensures keys { keys_proposed first_two (machine_of 2) same_key ≡ (0, 7) ∷ (1, 7) ∷ [] }
    ensures whole { answers first_two (machine_of 2) 1 same_key ≡ Verdict.Mapped ∷ Verdict.Ineligible ∷ [] }
    ensures apart { answers first_two (machine_of 2) 1 (of_salt 1 two_salts same_key) ≡ Verdict.Mapped ∷ Verdict.Hinted ∷ [] }
{}

/// Why frames must suffice: a store is refused only because a guest with another salt has the last frame. Without that
/// guest it is done. Nothing is proposed, so no keys clash.
pub fn want_across_salts()
    ensures keys { keys_proposed first_two (machine_of 1) no_offers ≡ [] }
    ensures whole { answers first_two (machine_of 1) 1 no_offers ≡ Verdict.NoFrame ∷ [] }
    ensures apart { answers first_two (machine_of 1) 1 (of_salt 1 two_salts no_offers) ≡ Verdict.Mapped ∷ [] }
{}
