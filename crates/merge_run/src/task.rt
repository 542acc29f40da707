//! What a guest's thread gets and what it returns.

use page_model::{Request, Verdict};
use share_rings::{ClosedPort, Port};
use std::alloc::{Allocator, Global};
use std::snapshot::Snapshot;
use std::thread::{Promise, PromisedHandle};

/// What a guest's thread gets.
#[derive(Drop)]
pub(crate) struct Task<A: Allocator = Global> {
    /// Which guest it is.
    pub(crate) guest: u8,
    /// The guest's end of its rings.
    pub(crate) port: Port<A>,
    /// What the guest sends before its close.
    pub(crate) script: Vec<Request, A>,
    /// An empty list, with room for a verdict on each request and on the close.
    pub(crate) verdicts: Vec<Verdict, A>,
}

/// What a guest's thread returns.
#[derive(Drop)]
pub(crate) struct DoneTask<A: Allocator = Global> {
    /// The guest's end, after the close and the last verdict.
    pub(crate) port: ClosedPort<A>,
    /// The verdicts that came, oldest first.
    pub(crate) verdicts: Vec<Verdict, A>,
}

/// The promise of a guest's thread: it did its task.
#[derive(Drop)]
pub(crate) struct DoesTask<A: Allocator = Global>(pub(crate) Snapshot<Task<A>>);

impl<A: Allocator> Promise<DoneTask<A>> for DoesTask<A> {
    ghost use Rattle.merge_run.specs.Tasks.{IsDone};

    ghost kept_by = { λ promise report. IsDone promise.0.value report };
}

/// The threads that were started, guest 0's first.
pub(crate) type Handles<A> = Vec<PromisedHandle<DoneTask<A>, DoesTask<A>>, A>;
