//! The numbers of a budget.

/// What a thread may use of one processor. Times are nanoseconds.
#[derive(Clone, Copy, Debug, PartialEq, Eq)]
pub struct BudgetConfig {
    /// Its share of the processor, in percent.
    pub percent: u32,
    /// What it gets at most while a credit lasts, in percent.
    pub burst: u32,
    /// What is saved up at most while it has nothing to do.
    pub saved_ns: u64,
    /// What it may owe at most and work still.
    pub owed_ns: u64,
    /// What its credit is at most.
    pub credit_ns: u64,
}

/// What a budget has counted, apart from its rates and limits. Times are nanoseconds.
#[derive(Clone, Copy, Debug, PartialEq, Eq)]
pub struct BudgetCounts {
    /// The time at the last count.
    pub time: u64,
    /// The processor time that the thread had used then.
    pub spent: u64,
    /// What is saved up.
    pub saved: u64,
    /// What is owed.
    pub owed: u64,
    /// What is left of the credit.
    pub credit: u64,
}
