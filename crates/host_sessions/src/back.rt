//! Loans that are taken back.
ghost use Rattle.std.specs.Prelude.{◌≡◌, ◌≤◌, length, map};
ghost use Rattle.host_sessions.specs.Turns.{back_by, is_among, kept_by};
ghost use Rattle.host_messages.specs.declared.limits.TheConstants.{MAX_IN_MESSAGE};

use crate::lend::not_lent;
use arrayvec::ArrayVec;
use host_messages::{Lent, MAX_IN_MESSAGE};
use share_domain::NO_FRAME;

/// Returns what is left of loans when those in these frames were taken back.
pub(crate) fn kept_in(frames: &[u32], loans: &[Lent]) -> ArrayVec<Lent, MAX_IN_MESSAGE>
    requires { length loans.now ≤ MAX_IN_MESSAGE }
    ensures { result.items ≡ map (kept_by frames.now) loans.now }
{
    let mut kept = ArrayVec::new();
    for lent in loans {
        kept.push(kept_by(frames, lent));
    }
    kept
}

/// Returns those loans that are taken back, and for each of the others a page that isn't lent.
pub(crate) fn back_in(frames: &[u32], loans: &[Lent]) -> ArrayVec<Lent, MAX_IN_MESSAGE>
    requires { length loans.now ≤ MAX_IN_MESSAGE }
    ensures { result.items ≡ map (back_by frames.now) loans.now }
{
    let mut back = ArrayVec::new();
    for lent in loans {
        back.push(back_by(frames, lent));
    }
    back
}

/// Returns what is left of one loan.
fn kept_by(frames: &[u32], lent: &Lent) -> Lent
    ensures { result ≡ kept_by frames.now lent.now }
{
    if is_among(frames, lent) {
        return not_lent();
    }
    *lent
}

/// Returns what is taken back of one loan.
fn back_by(frames: &[u32], lent: &Lent) -> Lent
    ensures { result ≡ back_by frames.now lent.now }
{
    if is_among(frames, lent) {
        return *lent;
    }
    not_lent()
}

/// Whether a page was lent, in one of these frames.
fn is_among(frames: &[u32], lent: &Lent) -> bool
    ensures { result ≡ is_among frames.now lent.now }
{
    lent.frame != NO_FRAME && frames.contains(&lent.frame)
}
