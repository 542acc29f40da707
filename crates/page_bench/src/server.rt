//! The merger's part of a round trip.
ghost use Rattle.std.specs.Prelude.{◌≡◌, length};
ghost use Rattle.share_rings.specs.Closing as closing;
ghost use Rattle.share_rings.specs.Ends.{end_taken, end_given};

use page_model::{Request, Verdict};
use share_rings::{MergerEnd, Port, ring_pair};
use std::alloc::Global;

const CAPACITY: u32 = 64;

/// A merger's end that has answered each request that it took.
#[derive(Drop)]
pub struct Server {
    end: MergerEnd,
    ghost even: { length (end_given end) ≡ length (end_taken end) },
}

/// Makes a pair of rings.
pub fn new_pair(alloc: Global) -> Option<(Port, Server)> {
    let (port, end) = ring_pair(alloc, CAPACITY).ok()?;
    Some((port, Server { end }))
}

/// Takes one request and answers it. Returns false if there was none, or no slot for its verdict.
pub fn serve_one(server: &mut Server) -> bool {
    if server.end.free() == 0 {
        return false;
    }
    let Some(request) = server.end.take() else {
        return false;
    };
    server.end.give(answer(&request));
    true
}

fn answer(request: &Request) -> Verdict
    ensures { closing.is_closed result ≡ closing.is_close request.now }
{
    match request {
        Request::Propose(ppn) => Verdict::Joined(*ppn),
        Request::Store(_) | Request::Load(_) | Request::Release(_) | Request::Count => {
            Verdict::NoPage
        }
        Request::Close => Verdict::Closed,
    }
}
