//! A thread's budget, as C keeps it.
ghost use Rattle.std.specs.Prelude.{◌≡◌};
ghost use Rattle.look_tasks.specs.Budgets.{config_of, settled, wait_of};
ghost use Rattle.pageshare_window_c.specs.Budgets.{ledger_of, rates};

use look_tasks::{Budget, BudgetConfig, BudgetCounts};

/// What is saved up at most while the thread has nothing to do: 2 ms.
pub const SAVED_NS: u64 = 2_000_000;

/// What the thread may owe at most and work still: 0.2 ms.
pub const OWED_NS: u64 = 200_000;

/// The greatest credit, 60 s: that of a first look at a guest of 256 GiB.
pub const CREDIT_NS: u64 = 60_000_000_000;

/// The numbers of a budget. Times are nanoseconds. Any numbers are those of a budget: what is beyond a limit counts as the limit.
#[repr(C)]
#[derive(Clone, Copy)]
pub struct WindowBudget {
    /// The time at the last count.
    pub time: u64,
    /// The processor time that the thread had used then.
    pub spent: u64,
    /// What is saved up.
    pub saved: u64,
    /// What is owed.
    pub owed: u64,
    /// What is left of the credit.
    pub credit: u64,
    /// The share of one processor, in percent.
    pub percent: u32,
    /// The share while there is a credit, in percent.
    pub burst: u32,
}

/// Returns these rates with the limits of each budget.
pub(crate) fn config_by(percent: u32, burst: u32) -> BudgetConfig
    ensures { result ≡ rates percent burst }
{
    BudgetConfig {
        percent,
        burst,
        saved_ns: SAVED_NS,
        owed_ns: OWED_NS,
        credit_ns: CREDIT_NS,
    }
}

/// Makes the budget whose numbers these are.
pub(crate) fn budget_of(numbers: &WindowBudget) -> Budget
    ensures { result ≡ ledger_of numbers.now }
{
    let counts = BudgetCounts {
        time: numbers.time,
        spent: numbers.spent,
        saved: numbers.saved,
        owed: numbers.owed,
        credit: numbers.credit,
    };
    Budget::resume(config_by(numbers.percent, numbers.burst), counts)
}

/// Writes a budget's numbers.
pub(crate) fn put(numbers: &mut WindowBudget, budget: &Budget)
    requires { config_of budget.now ≡ rates budget.now.percent budget.now.burst }
    ensures { ledger_of numbers.new ≡ budget.now }
{
    let config = budget.config();
    let counts = budget.counts();
    *numbers = WindowBudget {
        time: counts.time,
        spent: counts.spent,
        saved: counts.saved,
        owed: counts.owed,
        credit: counts.credit,
        percent: config.percent,
        burst: config.burst,
    };
}

/// BudgetCounts what was used since the last call. Returns how many nanoseconds the thread waits before it calls again, 0 if it may work.
pub(crate) fn settle(numbers: &mut WindowBudget, now: u64, spent: u64) -> u64
    ensures ledger { ledger_of numbers.new ≡ settled (ledger_of numbers.old) now spent }
    ensures wait { result ≡ wait_of (ledger_of numbers.new) }
{
    let mut settled = budget_of(numbers);
    let wait = settled.settle(now, spent);
    put(numbers, &settled);
    wait
}
