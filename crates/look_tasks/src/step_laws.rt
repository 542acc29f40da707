//! That each part has its turn, once. The functions' bodies are empty: the contract is all there is.
ghost use Rattle.std.specs.Prelude.{◌≡◌};
ghost use Rattle.look_tasks.specs.StepLaws.{EachComesOnce, OverIsAll, NoneIsLost, ReturnsAreDue, ReturnsComeFirst, AllComeBack, ReturnsAreFew, NoneComesAtOnce};
ghost use Rattle.look_tasks.specs.declared.step.TheConstants.{MANY_YOUNG, RETURNS_MOST, RETURN_NS};

/// Whatever was asked and found, the look has come to the parts before the next one, each once and in order. Once it is over, it has come to
/// all.
pub fn each_law()
    ensures once { EachComesOnce }
    ensures all { OverIsAll }
{}

/// The look comes back to a part only if it was to, and only when it is time; to those first that were added first. None is lost. By a clock
/// that never goes back, no part comes while it is time to come back to another one. And once it is time for all, all of them come.
pub fn return_law()
    ensures kept { NoneIsLost }
    ensures due { ReturnsAreDue }
    ensures first { ReturnsComeFirst }
    ensures all { AllComeBack }
{}

/// It comes back to 64 parts at most at a time. And while the clock stands no more returns come than there were before, so the next part comes.
pub fn few_law()
    ensures few { ReturnsAreFew }
    ensures still { NoneComesAtOnce }
{}

/// A look comes back to a part with 12 young pages a second later, and to at most 64 parts at a time.
pub fn numbers_law()
    ensures many_young { MANY_YOUNG ≡ 12 }
    ensures return_ns { RETURN_NS ≡ 1000000000 }
    ensures returns_most { RETURNS_MOST ≡ 64 }
{}
