//! A thread's budget of processor time.
ghost use Rattle.std.specs.Prelude.{◌≡◌, ◌+◌, ◌-◌, ◌*◌, ◌/◌, ◌≤◌, min, max, true, nat_le};
ghost use Rattle.look_tasks.specs.Budgets.{part_of, begun, paced, credited, settled, may_work, wait_of, config_of, counts_of, resumed};

use crate::{BudgetConfig, BudgetCounts};
use std::marker::Model;

// The longest debt that a thread waits for at once, in nanoseconds: ten seconds.
const LONGEST: u64 = 10_000_000_000;

/// What a thread may use of one processor, by two clocks: the time, and the processor time that the thread has used.
#[derive(Drop)]
pub struct Budget {
    config: BudgetConfig,
    time: u64,
    spent: u64,
    saved: u64,
    owed: u64,
    credit: u64,
}

impl Model for Budget {
    ghost use Rattle.look_tasks.specs.Budgets.{Ledger, IsLedger};

    ghost Value = { Ledger };

    ghost view = { λ b. record {
      percent = b.config.percent;
      burst = b.config.burst;
      saved_most = b.config.saved_ns;
      owed_most = b.config.owed_ns;
      credit_most = b.config.credit_ns;
      time = b.time;
      spent = b.spent;
      saved = b.saved;
      owed = b.owed;
      credit = b.credit;
    } };

    ghost invariant = { λ b. IsLedger b.config.percent b.config.burst b.config.saved_ns b.config.credit_ns b.spent b.saved b.owed b.credit };
}

// Returns this many percent of a time.
fn part_of(percent: u32, ns: u64) -> u64
    requires { percent ≤ 100 }
    ensures { result ≡ part_of percent ns }
{
    (u128::from(percent) * u128::from(ns) / 100) as u64
}

// Returns the sum, but at most `most`.
fn sum_up_to(a: u64, b: u64, most: u64) -> u64
    requires { a ≤ most }
    ensures { result ≡ min most (a + b) }
{
    if b >= most - a { most } else { a + b }
}

impl Budget {
    /// Begins a budget at these readings of the clocks. A share is 1 to 100 percent, and a burst is no less.
    pub fn new(config: BudgetConfig, now: u64, spent: u64) -> Budget
        ensures { result ≡ begun config now spent }
    {
        let percent = config.percent.min(100).max(1);
        Budget {
            config: BudgetConfig {
                percent,
                burst: config.burst.min(100).max(percent),
                ..config
            },
            time: now,
            spent,
            saved: 0,
            owed: 0,
            credit: 0,
        }
    }

    /// Makes a budget from its rates and limits, and from what it has counted: the budget that returned both, if it is that. Of
    /// numbers beyond a limit the limit is left, and no more is owed than was used.
    pub fn resume(config: BudgetConfig, counts: BudgetCounts) -> Budget
        ensures { result ≡ resumed config counts }
    {
        let percent = config.percent.min(100).max(1);
        Budget {
            config: BudgetConfig {
                percent,
                burst: config.burst.min(100).max(percent),
                ..config
            },
            time: counts.time,
            spent: counts.spent,
            saved: counts.saved.min(config.saved_ns),
            owed: counts.owed.min(counts.spent),
            credit: counts.credit.min(config.credit_ns),
        }
    }

    /// Returns the rates and limits.
    pub fn config(&self) -> BudgetConfig
        ensures { result ≡ config_of self.now }
    {
        self.config
    }

    /// Returns what was counted. With it and the rates and limits, [`resume`](Budget::resume) makes the budget again.
    pub fn counts(&self) -> BudgetCounts
        ensures counts { result ≡ counts_of self.now }
        ensures resumes { resumed (config_of self.now) result ≡ self.now }
    {
        BudgetCounts {
            time: self.time,
            spent: self.spent,
            saved: self.saved,
            owed: self.owed,
            credit: self.credit,
        }
    }

    /// Changes the rates, and keeps the rest.
    pub fn pace(&mut self, percent: u32, burst: u32)
        ensures { self.new ≡ paced self.old percent burst }
    {
        let least = percent.min(100).max(1);
        self.config = BudgetConfig {
            percent: least,
            burst: burst.min(100).max(least),
            ..self.config
        };
    }

    /// Adds to the credit: processor time that may be used beyond the share, up to the burst.
    pub fn give_credit(&mut self, ns: u64)
        ensures { self.new ≡ credited self.old ns }
    {
        self.credit = sum_up_to(self.credit, ns, self.config.credit_ns);
    }

    /// BudgetCounts what was used since the last call. Returns how many nanoseconds the thread waits before it calls again, 0 if it may
    /// work. What is due is paid by what was saved, then by the share of the time that passed, and then by the credit.
    pub fn settle(&mut self, now: u64, spent: u64) -> u64
        ensures ledger { self.new ≡ settled self.old now spent }
        ensures wait { result ≡ wait_of self.new }
    {
        let passed = now.saturating_sub(self.time);
        let due = self.owed + spent.saturating_sub(self.spent);
        let by_saved = self.saved.min(due);
        let left = due - by_saved;
        let share = part_of(self.config.percent, passed);
        let by_share = share.min(left);
        let extra = part_of(self.config.burst - self.config.percent, passed);
        let by_credit = extra.min(self.credit).min(left - by_share);
        self.saved = sum_up_to(
            self.saved - by_saved,
            share - by_share,
            self.config.saved_ns,
        );
        self.owed = left - by_share - by_credit;
        self.credit -= by_credit;
        self.time = self.time.max(now);
        self.spent = self.spent.max(spent);
        self.wait()
    }

    /// Returns whether the thread may work, by what was counted last.
    pub fn may_work(&self) -> bool
        ensures { result ≡ may_work self.now }
    {
        self.owed <= self.config.owed_ns
    }

    // Returns how long the thread is to wait.
    fn wait(&self) -> u64
        ensures { result ≡ wait_of self.now }
    {
        if self.may_work() {
            return 0;
        }
        let rate = u64::from(if self.credit == 0 {
            self.config.percent
        } else {
            self.config.burst
        });
        (self.owed.min(LONGEST) * 100 + rate - 1) / rate
    }
}
