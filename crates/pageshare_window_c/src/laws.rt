//! What the numbers of this library stand for. The functions' bodies are empty: the contract is all there is.
ghost use Rattle.std.specs.Prelude.{◌≡◌};
ghost use Rattle.pageshare_window_c.specs.Tasks.{EachTaskHasNumbers};
ghost use Rattle.pageshare_window_c.specs.declared.budget.TheConstants.{CREDIT_NS, OWED_NS, SAVED_NS};

/// The limits of each budget are those that `window/pageshare_window.h` names.
pub fn limits_law()
    ensures saved { SAVED_NS ≡ 2000000 }
    ensures owed { OWED_NS ≡ 200000 }
    ensures credit { CREDIT_NS ≡ 60000000000 }
{}

/// Each task that `pageshare_window_next_task` returns is the one that `pageshare_window_task_done` takes what came of.
pub fn tasks_law()
    ensures { EachTaskHasNumbers }
{}
