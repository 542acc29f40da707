//! Machines' numbers and scripts, written by hand and as a run takes them.
ghost use Rattle.std.specs.Prelude.{◌≡◌, false, All, length, IfOk};
ghost use Rattle.share_rings.specs.Closing.{has_close, is_close};
ghost use Rattle.merge_run.specs.Runs.{CanBeRun};

use merge_run::Config;
use page_model::Request;
use std::alloc::{AllocError, Allocator};
use std::process::Abort;

/// What a script requests of a page. It is never a close, since a run sends that itself.
#[derive(Clone, Copy, Debug, PartialEq, Eq)]
pub enum Ask {
    /// A store of one byte at the page's start.
    Store(u32, u8),
    /// A load of that byte.
    Load(u32),
    Propose(u32),
    Release(u32),
    Count,
}

/// Returns the request itself.
pub fn request_of(ask: Ask) -> Request
    ensures { is_close result ≡ false }
{
    let made = match ask {
        Ask::Store(ppn, byte) => Request::store(ppn, 0, &[byte]),
        Ask::Load(ppn) => Request::load(ppn, 0, 1),
        Ask::Propose(ppn) => Ok(Request::Propose(ppn)),
        Ask::Release(ppn) => Ok(Request::Release(ppn)),
        Ask::Count => Ok(Request::Count),
    };
    made.unwrap_or(Request::Count)
}

/// Makes the script of one guest.
pub fn script_of<A: Allocator>(alloc: A, asks: &[Ask]) -> Result<Vec<Request, A>, AllocError>
    ensures { IfOk result (λ script. has_close script.items ≡ false) }
{
    let mut script = Vec::with_capacity(alloc, asks.len())?;
    for ask in asks {
        script.push_reserved(request_of(*ask));
    }
    Ok(script)
}

/// Makes the scripts of all guests, guest 0's first.
pub fn scripts_of<A: Allocator + Copy>(
    alloc: A,
    asks: &[&[Ask]],
) -> Result<Vec<Vec<Request, A>, A>, AllocError>
    ensures each { IfOk result (λ scripts. length scripts.items ≡ length asks.now) }
    ensures plain { IfOk result (λ scripts. All (λ script. has_close script.items ≡ false) scripts.items) }
{
    let mut scripts = Vec::with_capacity(alloc, asks.len())?;
    for list in asks {
        scripts.push_reserved(script_of(alloc, list)?);
    }
    Ok(scripts)
}

/// A machine's numbers: guest i has `pages[i]` pages and the salt `salts[i]`.
#[derive(Clone, Copy, Debug, PartialEq, Eq)]
pub struct Numbers<'a> {
    pub frames: u32,
    pub pages: &'a [u32],
    pub salts: &'a [u32],
    pub ring: u32,
    pub journal: u32,
}

/// What can be run.
#[derive(Drop)]
pub struct Setting<A: Allocator> {
    pub config: Config<A>,
    pub scripts: Vec<Vec<Request, A>, A>,
}

/// Returns the machine's numbers as a run takes them.
pub fn config_of<A: Allocator + Copy>(
    alloc: A,
    numbers: &Numbers<'_>,
) -> Result<Config<A>, AllocError>
    ensures frames { IfOk result (λ config. config.frames ≡ numbers.now.frames) }
    ensures pages { IfOk result (λ config. config.pages.items ≡ numbers.now.pages.now) }
{
    Ok(Config {
        frames: numbers.frames,
        pages: Vec::from_slice(alloc, numbers.pages)?,
        salts: Vec::from_slice(alloc, numbers.salts)?,
        ring: numbers.ring,
        journal: numbers.journal,
    })
}

/// Makes what is run: a script for each guest, unless there is no such machine because it has no frames. It takes two
/// lists for the machine's numbers, then one for the scripts and one for each of them.
pub fn setting_of<A: Allocator + Copy>(
    rt: &impl Abort,
    alloc: A,
    numbers: &Numbers<'_>,
    asks: &[&[Ask]],
) -> Setting<A>
    ensures { CanBeRun result.config result.scripts.items }
{
    assert!(rt; numbers.frames == 0 || numbers.pages.len() == asks.len());
    let config = config_of(alloc, numbers).expect(rt, "memory for the numbers");
    let scripts = scripts_of(alloc, asks).expect(rt, "memory for the scripts");
    Setting { config, scripts }
}
