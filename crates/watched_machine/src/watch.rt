//! The half that reads.
ghost use Rattle.std.specs.Prelude.{◌≡◌, [], ◌∷◌, true, IfSome, All};
ghost use Rattle.left_right.specs.Sides.{view};
ghost use Rattle.watched_machine.specs.Reports.{StartsWith};

use crate::proof_list::{ProofList, heard_also, nothing_heard};
use crate::seat::{LastShown, Looked, Seat};
use crate::shown::Shown;
use crate::told::Told;
use core::mem::replace_with;
use left_right::reader::Reader;
use page_model::Report;
use std::alloc::{Allocator, Global};
use std::collections::LinkedList;
use thiserror::Error;

/// There are eight watches already, or `left_right` had no place.
#[derive(Clone, Copy, Debug, PartialEq, Eq, Error)]
#[error("no place for one more watch: drop one of those that there are, at most 8, then call again")]
pub struct NoWatch;

type Place<A> = Reader<Shown, Seat, LastShown, A>;

/// Reads the report that was published last, in any thread.
///
/// It has the list of reports that it saw, the last of which it read, and the lists that it learned. It keeps none of them in
/// memory.
#[derive(Drop)]
pub struct Watch<A: Allocator = Global> {
    reader: Place<A>,
    // The longest list that it learned or saw.
    longest: Told,
    // The list that it saw.
    saw: Told,
    heard: ProofList<LinkedList<Report>>,
    pub ghost tied: { (view reader.place).is_tied ≡ true },
    pub ghost tied_here: { (view reader.place).history.book ≡ longest.history.book },
    pub ghost saw_here: { saw.history.book ≡ longest.history.book },
    pub ghost saw_no_longer: { StartsWith longest.history.log saw.history.log },
    pub ghost heard_no_longer: { All (StartsWith longest.history.log) heard.log },
}

impl<A: Allocator> Watch<A> {
    ghost use Rattle.watched_machine.specs.Lists.{list_told, told_id, watch_id, seen, heard};
    ghost use Rattle.watched_machine.specs.Watching.{Hears, Reads, TellsSeen};

    pub(crate) fn starting(reader: Place<A>, nothing: Told, told: Told) -> Watch<A>
        requires tied { ((view reader.place).is_tied ≡ true) × ((view reader.place).history.book ≡ told_id told) }
        requires nothing { (list_told nothing ≡ []) × (told_id nothing ≡ told_id told) }
        ensures { (seen result ≡ []) × (heard result ≡ list_told told ∷ []) × (watch_id result ≡ told_id told) }
    {
        let (heard, longest) = heard_also(nothing_heard(), told);
        Watch {
            reader,
            longest,
            saw: nothing,
            heard,
        }
    }

    /// Learns what the watch's publisher had published when it made `told`, so that no later read is older. Takes no memory.
    pub fn learn(&mut self, told: Told)
        requires same_publisher { told_id told ≡ watch_id self.old }
        ensures { Hears self.old self.new told }
    {
        let mut history = self.longest.history.again();
        history.learn(&told.history);
        let (heard, told) = heard_also(self.heard.again(), told);
        self.heard = heard;
        if self.longest.count < told.count {
            self.longest = told;
        }
    }

    /// Returns the report that was published last; all zeros before the first. Waits for nobody, and takes no memory.
    ///
    /// A `None` changes nothing. It comes only if `left_right` shows no report: once the publisher was ended.
    pub fn read(&mut self) -> Option<Report>
        ensures same { watch_id self.new ≡ watch_id self.old }
        ensures heard { heard self.new ≡ heard self.old }
        ensures read { IfSome result (Reads self.old self.new) }
        ensures none { result ≡ None → seen self.new ≡ seen self.old }
    {
        let told = replace_with(
            &mut self.reader,
            &self.longest,
            |reader, told| look(reader, told),
        )?;
        let report = told.report;
        self.longest = told.again();
        self.saw = told;
        Some(report)
    }

    /// Returns a [`Told`] of the reports that the watch has seen, which [`Publisher::has_published`](crate::Publisher) takes.
    /// Takes no memory.
    pub fn tell(&self) -> Told
        ensures { TellsSeen self.now result }
    {
        self.saw.again()
    }
}

// Reads the list that is shown, or the one that was learned where that is longer, which never happens: a report is shown before
// it is told. Returns none only if nothing is shown.
fn look<A: Allocator>(reader: Place<A>, told: &Told) -> (Place<A>, Option<Told>)
    requires { ((view reader.place).is_tied ≡ true) × ((view reader.place).history.book ≡ told.now.history.book) }
    ensures tied { ((view result.0.place).is_tied ≡ true) × ((view result.0.place).history.book ≡ told.now.history.book) }
    ensures book { IfSome result.1 (λ list. list.history.book ≡ told.now.history.book) }
    ensures list { IfSome result.1 (λ list. StartsWith list.history.log told.now.history.log) }
{
    match reader.enter_as::<Looked>() {
        Ok(reading) => {
            let longer = longer_of(&reading.get().told, told);
            (reading.leave(), Some(longer))
        }
        Err(reader) => (reader, None),
    }
}

// Returns the longer one of two lists of one publisher, the first one if they are equally long.
fn longer_of(first: &Told, second: &Told) -> Told
    requires { first.now.history.book ≡ second.now.history.book }
    ensures book { result.history.book ≡ second.now.history.book }
    ensures list { StartsWith result.history.log second.now.history.log }
{
    let mut history = first.history.again();
    history.learn(&second.history);
    if second.count <= first.count {
        first.again()
    } else {
        second.again()
    }
}
