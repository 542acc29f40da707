//! The text of `/proc/PID/smaps`.
ghost use Rattle.std.specs.Prelude.{◌≡◌, IfOk};
ghost use Rattle.std.specs.List.{slice_split};
ghost use Rattle.live_memory.specs.Maps.{IsPushed, IsRead, is_feed, mappings_of};
ghost use Rattle.live_memory.specs.Ranges.{HaveWhole};

use crate::details::{is_detail, is_offered};
use crate::mapping::{is_kept, read_mapping, writable_of};
use crate::{LiveFault, WritableMapping};
use std::alloc::Allocator;
use text_words::word::cut;

/// Appends a line's mapping, if its pages may be read. What comes behind the line says whether it is offered.
fn push_kept<A: Allocator>(
    mappings: &mut Vec<WritableMapping, A>,
    bytes: &[u8],
    behind: &[u8],
    line: u64,
) -> Result<(), LiveFault>
    ensures pushed { IsPushed line mappings.old.items mappings.new.items bytes.now (slice_split is_feed behind.now) result }
    ensures whole { HaveWhole mappings.old.items → HaveWhole mappings.new.items }
{
    if is_detail(bytes) {
        return Ok(());
    }
    let Some((mapping, name)) = read_mapping(bytes) else {
        return Err(LiveFault::Line(line));
    };
    if is_kept(mapping, name) {
        mappings.push(writable_of(mapping, name, is_offered(behind)))?;
    }
    Ok(())
}

/// Returns the mappings of a process that are no file's and can be written, by the text of its `/proc/PID/smaps` or of its
/// `/proc/PID/maps`, which doesn't say what is offered. The first line that isn't of its form is a fault.
pub fn writable_mappings<A: Allocator>(
    alloc: A,
    maps: &[u8],
) -> Result<Vec<WritableMapping, A>, LiveFault>
    ensures read { IsRead (λ mappings. mappings.items) (mappings_of maps.now) result }
    ensures whole { IfOk result (λ mappings. HaveWhole mappings.items) }
{
    let mut mappings = Vec::new(alloc);
    let mut rest = maps;
    let mut line: u64 = 1;
    while !rest.is_empty() {
        let Some((bytes, behind)) = cut(b'\n', rest) else {
            return Err(LiveFault::Line(line));
        };
        push_kept(&mut mappings, bytes, behind, line)?;
        rest = behind;
        line += 1;
    }
    Ok(mappings)
}
