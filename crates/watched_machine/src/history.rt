//! A publisher's log of its reports, which exists in the proofs alone, and the counter of them.
//!
//! The log only grows, so what a token says of it stays true, in every thread.
ghost use Rattle.std.specs.Prelude.{◌≡◌, ◌+◌, ◌<◌, ◌^◌, ◌++◌, ◌∷◌, [], length, MatchBool};
ghost use Rattle.watched_machine.specs.Counting.{counter_of};

use logbook::{Gain, Offer, Plain, Play, Rule, Seen, Word};
use page_model::Report;

/// The rule of a log: the counter holds the number of reports.
pub struct Counted;

impl Rule<Report, u64> for Counted {
    ghost use Rattle.std.specs.Prelude.{[]};
    ghost use base.Fml.{ftrue};
    ghost use Rattle.watched_machine.specs.Counting.{CountsReports};

    ghost holds = { λ cells log. CountsReports cells log };

    ghost first = { [] };

    ghost hinted = { λ number log. Unit {0} };

    ghost shows = { λ log. [] };

    ghost keeps = { λ names log. ftrue };

    ghost moves = { λ ask before after answer. Unit {0} };
}

/// The publisher keeps nothing but the log.
pub struct NoGain;

impl Gain<Report, u64> for NoGain {
    ghost use base.Fml.{ftrue};

    ghost after = { λ names about answer. ftrue };
}

/// The step that adds one report.
pub struct OneMore;

impl Play<Report, u64> for OneMore {
    ghost use Rattle.watched_machine.specs.Counting.{AddsReport};

    ghost then = { AddsReport };
}

impl Plain<Report, Report, u64> for OneMore {
    ghost use Rattle.std.specs.Prelude.{None};

    ghost ask = { λ report. report };

    ghost state = { λ report. None };
}

/// Says that the log has reached these reports. It has no bytes.
pub type History = Seen<Report, u64, Counted>;

/// The number of reports.
pub type Counter = Word<Report, u64, Counted>;

/// Adds a report if the log is still as long as it was known to be, and returns whether it was.
pub fn add_report(counter: &Counter, history: &mut History, count: u64, report: Report) -> bool
    requires counter { counter.now ≡ counter_of history.old.book }
    requires count { length history.old.log ≡ count }
    requires room { count + 1 < 2 ^ 64 }
    ensures same { history.new.book ≡ history.old.book }
    ensures added { MatchBool result (history.new.log ≡ history.old.log ++ report ∷ []) (Unit {0}) }
{
    let mut offer: Offer<Report, u64, Counted, NoGain> = history.plain::<NoGain, Report, OneMore>(
        &report,
    );
    let mut pen = history.no_pen();
    let found = counter.compare_exchange::<OneMore, NoGain>(
        count,
        count + 1,
        history,
        &mut offer,
        &mut pen,
    );
    found == count
}
