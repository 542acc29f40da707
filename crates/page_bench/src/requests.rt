//! What the guests of a run request.
ghost use Rattle.std.specs.Prelude.{◌≡◌, false, All, IfOk};
ghost use Rattle.share_rings.specs.Closing.{has_close, is_close};

use page_model::Request;
use std::alloc::{AllocError, Global};

/// How many pages each guest has, and how many frames there are for each guest.
pub const PAGES: u32 = 64;

/// What each guest requests.
#[derive(Clone, Copy)]
pub enum Mix {
    /// Each page is stored to, read and proposed, page after page. One request in 16 is a proposal, since a page's hash
    /// costs far more than all else. Every fourth page holds the same in all guests, and no two of the others do.
    Proposals,
    /// Alternate stores and loads.
    Plain,
}

/// Returns request number n of a guest.
pub fn request(mix: Mix, guest: u8, n: u32) -> Request
    ensures { is_close result ≡ false }
{
    match mix {
        Mix::Proposals => request_of_proposals(guest, n),
        Mix::Plain => plain_request(n),
    }
}

fn plain_request(n: u32) -> Request
    ensures { is_close result ≡ false }
{
    let ppn = n / 2 % PAGES;
    let made = match n % 2 {
        0 => Request::store(ppn, 0, &[(ppn % 4) as u8; 8]),
        _ => Request::load(ppn, 0, 8),
    };
    made.unwrap_or(Request::Count)
}

// Returns what a guest's request number n stores. Most contents differ, since a page that holds what was just hashed isn't
// hashed again.
fn content(guest: u8, n: u32) -> [u8; 8] {
    let [a, b, c, d] = n.to_be_bytes();
    match n / 16 % 4 {
        0 => [1; 8],
        _ => [guest, 2, 2, 2, a, b, c, d],
    }
}

fn request_of_proposals(guest: u8, n: u32) -> Request
    ensures { is_close result ≡ false }
{
    let ppn = n / 16 % PAGES;
    let made = match n % 16 {
        0 => Request::store(ppn, 0, &content(guest, n)),
        15 => Ok(Request::Propose(ppn)),
        _ => Request::load(ppn, 0, 8),
    };
    made.unwrap_or(Request::Count)
}

/// Returns the first requests of each guest.
pub fn scripts(
    alloc: Global,
    mix: Mix,
    guests: u8,
    requests: u32,
) -> Result<Vec<Vec<Request>>, AllocError>
    ensures { IfOk result (λ scripts. All (λ script. has_close script.items ≡ false) scripts.items) }
{
    let mut scripts = Vec::with_capacity(alloc, guests as usize)?;
    for guest in 0..guests {
        scripts.push_reserved(script(alloc, mix, guest, requests)?);
    }
    Ok(scripts)
}

fn script(alloc: Global, mix: Mix, guest: u8, requests: u32) -> Result<Vec<Request>, AllocError>
    ensures { IfOk result (λ script. has_close script.items ≡ false) }
{
    let mut script = Vec::with_capacity(alloc, requests as usize)?;
    for n in 0..requests {
        script.push_reserved(request(mix, guest, n));
    }
    Ok(script)
}
