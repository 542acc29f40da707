//! A publisher that is lent to a run.
use crate::Publisher;
use merge_run::Observer;
use page_model::Report;
use std::alloc::{Allocator, Global};
use std::sync::Wait;

/// A report is due once this many requests were served since the last one.
const MOST_UNPUBLISHED: u32 = 4_096;

/// A publisher that its owner lends to a run: a run owns nothing that can't be dropped, and a publisher can't.
#[derive(Drop)]
pub(crate) struct LentPublisher<'p, P: Allocator = Global> {
    pub(crate) publisher: &'p mut Publisher<P>,
    /// The number of requests that were served since a report was published.
    pub(crate) unpublished: u32,
}

impl<'p, P: Allocator> Observer for LentPublisher<'p, P> {
    ghost use Rattle.std.specs.Prelude.{◌≡◌};
    ghost use Rattle.watched_machine.specs.Lists.{published};

    ghost name = { λ lent. lent.publisher.ghost_name };

    ghost kept = { λ lent. published lent.publisher.now };

    // The loan stays the same.
    ghost becomes = { λ before report served after. after.publisher.ghost_name ≡ before.publisher.ghost_name };

    /// Publishes the report after every `MOST_UNPUBLISHED` requests, and when the merger waits. If memory is refused, it tries
    /// again after as many requests more.
    fn observe<R: Wait>(self, rt: &R, report: Report, served: u32) -> LentPublisher<'p, P> {
        let LentPublisher {
            publisher,
            unpublished,
        } = self;
        let unpublished = unpublished.saturating_add(served);
        let is_due = unpublished >= MOST_UNPUBLISHED || (served == 0 && unpublished > 0);
        if !is_due {
            return LentPublisher {
                publisher,
                unpublished,
            };
        }
        drop(publisher.publish(rt, report));
        LentPublisher {
            publisher,
            unpublished: 0,
        }
    }
}
