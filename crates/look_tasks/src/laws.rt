//! What the tasks of a look are worth. The functions' bodies are empty: the contract is all there is.
ghost use Rattle.std.specs.Prelude.{◌≡◌};
ghost use Rattle.look_tasks.specs.Shares.{KeepsToItsShare};
ghost use Rattle.look_tasks.specs.Laws.{AllPartsCome, AttendsAgain, AttendsInTime, EachPartComesOnce, FoundComesFirst, ReleasesComeFirst, StandsUntilItsEnd};
ghost use Rattle.look_tasks.specs.declared.task.TheConstants.{ATTEND_NS, BATCH, NAP_NS};

/// All pages that were found are shared or given back before the look comes back to a part, before it leaves a window, and before it ends.
pub fn found_law()
    ensures { FoundComesFirst }
{}

/// Whatever comes of the tasks, the look has come to the parts of its window before the next one, each once and in order. Where it goes on to
/// the next window by itself, it has come to all.
pub fn parts_law()
    ensures once { EachPartComesOnce }
    ensures all { AllPartsCome }
{}

/// A look stands until its last task, whatever comes of the others. It doesn't end while slots may be to be released.
pub fn end_law()
    ensures stands { StandsUntilItsEnd }
    ensures releases { ReleasesComeFirst }
{}

/// What may not wait for the look's end is attended to before anything else once it is time, which it is again a second later.
pub fn attend_law()
    ensures time { AttendsInTime }
    ensures again { AttendsAgain }
{}

/// A thread does these tasks by a budget, whatever comes of them. In any interval after which it works for the look, it has used at most its
/// share of the time, its savings, its credit, the debt that it may have, and that one task. Attending to what may not wait is part of that.
pub fn share_law()
    ensures { KeepsToItsShare }
{}

/// What may not wait is attended to each second, a nap takes a tenth of one at most, and 128 pages are shared together.
pub fn numbers_law()
    ensures attend_ns { ATTEND_NS ≡ 1000000000 }
    ensures nap_ns { NAP_NS ≡ 100000000 }
    ensures batch { BATCH ≡ 128 }
{}
