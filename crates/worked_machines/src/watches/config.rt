//! The numbers of machines whose salts are all 0.
ghost use Rattle.std.specs.Prelude.{◌≡◌, IfOk};

use std::alloc::{AllocError, Allocator};
use watched_machine::Config;

/// Returns the numbers of a machine whose salts are all 0.
pub fn config_of<A: Allocator + Copy>(
    alloc: A,
    frames: u32,
    pages: &[u32],
    ring: u32,
    journal: u32,
) -> Result<Config<A>, AllocError>
    ensures { IfOk result (λ config. config.pages.items ≡ pages.now) }
{
    Ok(Config {
        frames,
        pages: Vec::from_slice(alloc, pages)?,
        salts: vec![in alloc; 0; pages.len()]?,
        ring,
        journal,
    })
}
