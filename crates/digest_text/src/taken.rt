//! One more line, taken.
ghost use Rattle.std.specs.Prelude.{◌≡◌, ◌≤◌, length};
ghost use Rattle.digest_text.specs.Noted.{IsTaken};
ghost use Rattle.digest_text.specs.Repeats.{IsFront, IsRepeated, Spells};

use crate::Cause;
use crate::row::{Front, MAX_LINE_BYTES, counted, read_row};
use crate::so_far::{SoFar, follow, note};
use guest_digests::DigestLine;

/// Notes a line that begins with the bytes of the line before it, and returns its digest and copies. `None`: it begins with others
/// or is at fault, and nothing is noted.
fn take_repeat(so_far: &mut SoFar, front: &[u8], line: &[u8]) -> Option<DigestLine>
    requires { Spells front.now so_far.old.head }
    ensures taken { IsRepeated so_far.old so_far.new line.now result }
    ensures head { so_far.new.head ≡ so_far.old.head }
{
    if line.len() > MAX_LINE_BYTES {
        return None;
    }
    let found = counted(line.strip_prefix(front)?)?;
    match follow(so_far, &found) {
        Ok(()) => Some(found),
        Err(_cause) => None,
    }
}

/// Keeps the bytes with which a line begins.
fn keep(front: &mut Front, bytes: &[u8])
    requires { length bytes.now ≤ MAX_LINE_BYTES }
    ensures { front.new.items ≡ bytes.now }
{
    front.clear();
    let _ = front.try_extend_from_slice(bytes);
}

/// Notes what a line says, whatever it begins with, and returns its digest and copies, or its fault.
fn take_any(so_far: &mut Option<SoFar>, front: &mut Front, line: &[u8]) -> Result<DigestLine, Cause>
    requires { IsFront so_far.old front.old.items }
    ensures taken { IsTaken so_far.old so_far.new line.now result }
    ensures front { IsFront so_far.new front.new.items }
{
    let Some(row) = read_row(line) else {
        return Err(Cause::Form);
    };
    note(so_far, &row)?;
    keep(front, row.front);
    Ok(row.line)
}

/// Notes what a line says, and returns its digest and copies, or its fault.
pub(crate) fn take_line(
    so_far: &mut Option<SoFar>,
    front: &mut Front,
    line: &[u8],
) -> Result<DigestLine, Cause>
    requires { IsFront so_far.old front.old.items }
    ensures taken { IsTaken so_far.old so_far.new line.now result }
    ensures front { IsFront so_far.new front.new.items }
{
    if let Some(before) = so_far {
        if let Some(found) = take_repeat(before, front.as_slice(), line) {
            return Ok(found);
        }
    }
    take_any(so_far, front, line)
}
