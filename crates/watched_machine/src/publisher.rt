//! The half that publishes.
ghost use Rattle.std.specs.Prelude.{◌≡◌, ◌≤◌, [], true, IfOk, MatchResult};
ghost use Rattle.left_right.specs.Sides.{view};
ghost use Rattle.watched_machine.specs.Counting.{counter_of};
ghost use Rattle.watched_machine.specs.Reports.{last_of};

use crate::history::{Counter, History, add_report};
use crate::seat::{LastShown, Replaced, Seat, Tied};
use crate::shown::Shown;
use crate::told::Told;
use crate::watch::{NoWatch, Watch};
use core::mem::replace_with;
use left_right::writer::Writer;
use logbook::{Seen, Start, Word};
use page_model::{MAX_WATCHES, Report};
use std::alloc::{AllocError, Allocator, Global};
use std::sync::Wait;
use thiserror::Error;

/// Memory was refused, and there is no publisher.
#[derive(Clone, Copy, Debug, PartialEq, Eq, Error)]
#[error("out of memory, and there is no publisher: free some, then call again")]
pub struct OutOfMemory;

impl From<AllocError> for OutOfMemory {
    fn from(_refused: AllocError) -> OutOfMemory {
        OutOfMemory
    }
}

/// Why a report wasn't published. Nothing has changed.
#[derive(Clone, Copy, Debug, PartialEq, Eq, Error)]
pub enum PublishFault {
    /// The publisher has published 2^62 reports, and publishes no more.
    #[error("the publisher has published 2^62 reports, and publishes no more: make another one")]
    Full,
    /// Memory was refused.
    #[error("out of memory, and nothing has changed: free some, then call again")]
    OutOfMemory,
}

/// Publishes reports. Use it up by [`Publisher::end`], since it can't be dropped.
///
/// It has the list of all reports that were published, in order, but keeps only the last one in memory.
pub struct Publisher<A: Allocator = Global> {
    writer: Writer<Shown, Shown, Seat, LastShown, A>,
    counter: Counter,
    told: Told,
    // The log before its first report, for new watches.
    opening: History,
    pub ghost counter_is: { counter ≡ counter_of told.history.book },
    pub ghost opening_here: { opening.book ≡ told.history.book },
    pub ghost opening_empty: { opening.log ≡ [] },
    pub ghost shown_all: { writer.desk.shown.value.told.history ≡ told.history },
    pub ghost tied: { (view writer.desk.place).is_tied ≡ true },
    pub ghost tied_here: { (view writer.desk.place).history.book ≡ told.history.book },
}

// The most reports of a log. At a million publishes a second they last for 146,000 years.
const MAX_REPORTS: u64 = 1 << 62;

// Returns what a publisher tells before the first publish.
fn nothing_told(history: &History) -> Told
    requires { history.now.log ≡ [] }
    ensures { result.history ≡ history.now }
{
    Told {
        count: 0,
        report: Report::new(0, 0, 0, 0, 0),
        history: history.again(),
    }
}

// Returns what is shown before the first publish.
fn nothing_shown(history: &History) -> Shown
    requires { history.now.log ≡ [] }
    ensures { result.told.history ≡ history.now }
{
    let told = nothing_told(history);
    Shown { told }
}

impl<A: Allocator> Publisher<A> {
    ghost use Rattle.watched_machine.specs.Lists.{published, publisher_id, told_id};
    ghost use Rattle.watched_machine.specs.Published.{Publishes, Unchanged, TellsAll, IsNewWatch, Confirms, HasRoom, RefusedFor};

    /// Makes a publisher with an empty list, and room for 8 watches, which see all zeros before the first publish.
    ///
    /// It takes `rt` because it shows its first value once. It waits for nobody, since there is no watch yet.
    pub fn new<R: Wait>(rt: &R, alloc: A) -> Result<Publisher<A>, OutOfMemory>
    where
        A: Clone,
        ensures { IfOk result (λ publisher. published publisher ≡ []) }
    {
        let (opening, mut right, _second) = Seen::open(Start::alone(), 0, 0);
        let counter = Word::tracked(0, &mut right);
        let shown = nothing_shown(&opening);
        let same = shown.again();
        let writer = Writer::new(alloc, shown, same, MAX_WATCHES as usize)?;
        let (writer, shown) = writer.publish_as::<Replaced, R>(rt);
        match shown {
            Ok(()) => {}
            Err(_) => unreachable!(),
        }
        let told = nothing_told(&opening);
        Ok(Publisher {
            writer,
            counter,
            told,
            opening,
        })
    }

    /// Publishes a report, and returns a [`Told`] of the whole list. May wait for a watch that is reading.
    ///
    /// # Errors
    ///
    /// `Full` exactly after 2^62 reports, and otherwise `OutOfMemory` when memory is refused. Nothing has changed then.
    pub fn publish<R: Wait>(&mut self, rt: &R, report: Report) -> Result<Told, PublishFault>
        requires not_older { (last_of (published self.old)).entries ≤ report.entries }
        ensures same { publisher_id self.new ≡ publisher_id self.old }
        ensures published { MatchResult result (Publishes self.old self.new report) (λ _. published self.new ≡ published self.old) }
        ensures fault { MatchResult result (λ _. HasRoom self.old) (RefusedFor self.old) }
    {
        let count = self.told.count;
        if count >= MAX_REPORTS {
            return Err(PublishFault::Full);
        }
        // Memory comes first: once there is room for an operation that shows the same again, there is room for the next one.
        let same = self.writer.published().again();
        let Ok(()) = self.writer.append(same) else {
            return Err(PublishFault::OutOfMemory);
        };
        // Nobody else has the counter, so it always holds what was last put there; no clause can say so.
        let mut history = self.told.history.again();
        if !add_report(&self.counter, &mut history, count, report) {
            return Err(PublishFault::OutOfMemory);
        }
        let told = Told {
            count: count + 1,
            report,
            history,
        };
        let shown = told.again();
        let next = Shown { told: shown };
        let Ok(()) = self.writer.append(next) else {
            return Err(PublishFault::OutOfMemory);
        };
        let shown = replace_with(&mut self.writer, rt, |writer, rt| {
            writer.publish_as::<Replaced, R>(rt)
        });
        let Ok(()) = shown else {
            unreachable!();
        };
        self.told = told;
        Ok(self.told.again())
    }

    /// Returns a [`Told`] of all reports that were published so far. Takes no memory.
    pub fn tell(&self) -> Told
        ensures { TellsAll self.now result }
    {
        self.told.again()
    }

    /// Makes a watch that has seen nothing yet and has learned all that was published so far.
    ///
    /// An `Err` comes if there are eight watches already; `left_right` may also refuse one for its own reasons.
    pub fn watch(&mut self) -> Result<Watch<A>, NoWatch>
        ensures unchanged { Unchanged self.old self.new }
        ensures watch { IfOk result (IsNewWatch self.old) }
    {
        let Ok(mut reader) = self.writer.factory().reader() else {
            return Err(NoWatch);
        };
        reader.learn::<Tied>(self.writer.tell::<Tied>());
        Ok(Watch::starting(reader, nothing_told(&self.opening), self.tell()))
    }

    /// Returns whether a watch, or an earlier `Told`, has only what this publisher published. It is `false` only if the list is
    /// longer than all that was published, which never happens.
    pub fn has_published(&self, told: &Told) -> bool
        requires same_publisher { told_id told.now ≡ publisher_id self.now }
        ensures { Confirms self.now told.now result }
    {
        let mut history = self.told.history.again();
        history.learn(&told.history);
        told.count <= self.told.count
    }

    /// Ends the publisher, and waits for the watches that are reading right now. After that, no watch reads anything.
    pub fn end<R: Wait>(self, rt: &R) {
        let Publisher {
            writer,
            counter: _,
            told: _,
            opening: _,
        } = self;
        let _last = writer.take(rt);
    }
}
