//! No thread that keeps to its budget uses more than its share. The functions' bodies are empty: the contract is all there is.
ghost use Rattle.look_tasks.specs.Budgets.{called};
ghost use Rattle.look_tasks.specs.Chores.{KeepsToATenth};
ghost use Rattle.look_tasks.specs.Stretches.{EveryStretch, OneOrderMore, WaitsEnough, by_order_only, LettingOffIsWrong, NothingIsLetOff};

/// For all calls in any order, whatever the clocks say: the time used over these calls is at most a sum of four. It consists of
/// the budget's share of the time that passed, what was saved before, the credit that there was or was given, and what is owed
/// afterwards. It is also at most the sum of the burst's share, what was saved, and what is owed.
pub fn stretch_law()
    ensures { EveryStretch called }
{}

/// If the thread may work after these calls, it has used no more than its share, what was saved, its credit, and what it may owe.
/// So with its next order it uses at most that and this order.
pub fn order_law()
    ensures { OneOrderMore called }
{}

/// A thread that does nothing for as long as `settle` returned, and has no credit, may work then.
pub fn wait_law()
    ensures { WaitsEnough }
{}

/// A budget that counts each order by itself, and forgets what is owed, can exceed its share.
pub fn wrong_budget()
    ensures { EveryStretch by_order_only → ⊥ }
{}

/// A budget that lets off what is owed above some amount doesn't keep to its share, whatever the amount is: `order_law` isn't true of it. It
/// is true only where nothing is ever let off. So it is if no order takes longer than that amount less what the thread may owe.
pub fn let_off_law()
    ensures wrong { LettingOffIsWrong }
    ensures never { NothingIsLetOff }
{}

/// Something that is done whether the budget lets the thread work or not, and each time no sooner than [`again_ns`](crate::again_ns) returned:
/// until it is done again, it has used at most a tenth of the thread's share of the time since it was first done.
pub fn chore_law()
    ensures { KeepsToATenth }
{}
