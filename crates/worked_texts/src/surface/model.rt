//! `page_model`: requests, and laws on journals and events.
use crate::checks::holds;
use page_model::laws::{alone_law, entries_law, last_stored_law};
use page_model::{Entry, Event, Request, RequestFault};

#[test]
fn requests_and_laws(rt: HostRuntime) {
    let store = Request::store(0, 4_095, &[0x41]).expect(&rt, "memory");
    holds(&rt, Request::load(0, 0, 65) == Err(RequestFault::Length));
    let entries = [Entry {
        guest: 0,
        request: store,
    }];
    last_stored_law(&entries);
    alone_law(&entries, 0);
    entries_law(&entries);
    merge_run::schedule_law(&[
        Event::Send(0, Request::Count),
        Event::Take(0),
        Event::Give(0),
        Event::Get(0),
    ]);
}
