//! What the lines so far say.
ghost use Rattle.std.specs.Prelude.{◌≡◌, Some, None, IfOk, is_none, nat_lt, ◌&&◌};
ghost use Rattle.guest_digests.specs.Samples.{IsSample};
ghost use Rattle.digest_text.specs.Rows.{after_row, is_same_head, less};
ghost use Rattle.digest_text.specs.Seen.{IsOfForm, head_seen, row_seen};
ghost use Rattle.digest_text.specs.Noted.{IsNoted};

use crate::row::{LineHead, LineRow};
use crate::{Cause, DigestHead, GuestName};
use guest_digests::{DigestLine, Sample, Sampling};

/// What the lines so far say.
#[derive(Drop)]
pub(crate) struct SoFar {
    pub(crate) head: DigestHead,
    pub(crate) sampling: Sampling,
    /// The last digest.
    pub(crate) digest: u128,
    /// How many of all pages no line so far lists. `None`: the lines list more copies than there are pages.
    pub(crate) left: Option<u64>,
}

fn less(left: Option<u64>, copies: u64) -> Option<u64>
    ensures { result ≡ less left copies }
{
    left?.checked_sub(copies)
}

/// Whether a line of this guest begins so.
fn is_same_head(head: &DigestHead, other: &LineHead<'_>) -> bool
    ensures { result ≡ is_same_head head.now (head_seen other.now) }
{
    head.guest.as_bytes() == other.guest
        && head.salt == other.salt
        && head.pages == other.pages
        && head.sample.get() == other.every
}

/// Whether there are more copies than pages, where only some contents are kept.
fn is_over(every: u32, left: Option<u64>) -> bool
    ensures { result ≡ (nat_lt 1 every && is_none left) }
{
    every > 1 && left.is_none()
}

fn sample_of(every: u32) -> Sample
    requires { IsSample every }
    ensures { result ≡ every }
{
    match Sample::new(every) {
        Some(sample) => sample,
        None => unreachable!(),
    }
}

/// Returns what the first line says.
#[tactic(auto, unfolding(crate::specs::Rows::after_row))]
fn first(row: &LineRow<'_>) -> Result<SoFar, Cause>
    requires { IsOfForm row.now.head }
    ensures value { result ≡ after_row None (row_seen row.now) }
    ensures head { IfOk result (λ so_far. so_far.head ≡ head_seen row.now.head) }
{
    let head = &row.head;
    let digest = row.line.digest;
    let sample = sample_of(head.every);
    let sampling = Sampling::new(head.salt, sample);
    if !sampling.keeps(digest) {
        return Err(Cause::Sample);
    }
    let left = less(Some(head.pages), row.line.copies);
    if is_over(head.every, left) {
        return Err(Cause::Total);
    }
    let head = DigestHead {
        guest: GuestName::from_name(head.guest),
        salt: head.salt,
        pages: head.pages,
        sample,
    };
    Ok(SoFar {
        head,
        sampling,
        digest,
        left,
    })
}

/// Notes one more line that begins as those before it, or returns its fault and notes nothing.
#[tactic(auto, unfolding(crate::specs::Rows::after_row))]
pub(crate) fn follow(so_far: &mut SoFar, line: &DigestLine) -> Result<(), Cause>
    ensures { IsNoted (Some so_far.old) (Some so_far.new) (record { head = so_far.old.head; line = line.now }) result }
{
    if line.digest <= so_far.digest {
        return Err(Cause::Order);
    }
    if !so_far.sampling.keeps(line.digest) {
        return Err(Cause::Sample);
    }
    let left = less(so_far.left, line.copies);
    if is_over(so_far.head.sample.get(), left) {
        return Err(Cause::Total);
    }
    so_far.digest = line.digest;
    so_far.left = left;
    Ok(())
}

/// Notes what one more line says, or returns its fault and notes nothing.
#[tactic(auto, unfolding(crate::specs::Rows::after_row))]
fn next(so_far: &mut SoFar, row: &LineRow<'_>) -> Result<(), Cause>
    ensures { IsNoted (Some so_far.old) (Some so_far.new) (row_seen row.now) result }
{
    if !is_same_head(&so_far.head, &row.head) {
        return Err(Cause::Guest);
    }
    follow(so_far, &row.line)
}

/// Notes what a line says, or returns its fault and notes nothing.
pub(crate) fn note(so_far: &mut Option<SoFar>, row: &LineRow<'_>) -> Result<(), Cause>
    requires { IsOfForm row.now.head }
    ensures { IsNoted so_far.old so_far.new (row_seen row.now) result }
{
    match so_far {
        Some(before) => next(before, row),
        None => {
            *so_far = Some(first(row)?);
            Ok(())
        }
    }
}
