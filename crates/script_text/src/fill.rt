//! What lines ask for, as the requests of their guests.
ghost use Rattle.std.specs.Prelude.{◌≡◌, ◌≤◌, ◌++◌, IfErr, OnOk};
ghost use Rattle.share_rings.specs.Numbers.{number_of};
ghost use Rattle.text_words.specs.declared.fault.TextFault.TheVariants.{OutOfMemory};
ghost use Rattle.script_text.specs.Works.{proposals, requests_of};

use crate::work::Work;
use page_model::Request;
use share_rings::Scan;
use std::alloc::Allocator;
use text_words::TextFault;

/// Appends proposals of the next `n` numbers of a scan.
fn add_scan<A: Allocator>(script: &mut Vec<Request, A>, scan: Scan, n: u32) -> Result<(), TextFault>
    ensures items { OnOk result (script.new.items ≡ script.old.items ++ proposals (number_of scan) n) }
    ensures err { IfErr result (λ e. e ≡ OutOfMemory) }
{
    let mut scan = scan;
    script.reserve(n as usize)?;
    for _i in 0..n {
        script.push(Request::Propose(scan.next()))?;
    }
    Ok(())
}

/// Appends the requests of a line of a guest with this many pages.
pub(crate) fn add<A: Allocator>(
    script: &mut Vec<Request, A>,
    pages: u32,
    work: Work,
) -> Result<(), TextFault>
    requires { 1 ≤ pages }
    ensures items { OnOk result (script.new.items ≡ script.old.items ++ requests_of pages work) }
    ensures err { IfErr result (λ e. e ≡ OutOfMemory) }
{
    match work {
        Work::Asks(request) => script.push(request)?,
        Work::ScansInOrder(n) => add_scan(script, Scan::sequential(pages), n)?,
        Work::ScansAtRandom(seed, n) => add_scan(script, Scan::random(seed, pages), n)?,
    }
    Ok(())
}
