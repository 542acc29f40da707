//! Where to find a page that is numbered among the pages of all guests.
ghost use Rattle.std.specs.Prelude.{◌≡◌, ◌+◌, ◌<◌, ◌≤◌, ◌^◌, true, length, slice_index_or, slice_index, take, drop, IfOk, OnOk};
ghost use Rattle.page_census.specs.Contents.{contents, are_same, AreSteady};
ghost use Rattle.page_census.specs.Classes.{DistinguishedBy};
ghost use Rattle.page_census.specs.Fingerprints.{Sure, fingerprints, seen};
ghost use Rattle.page_census.specs.Places.{Holds, StandsAt};

use crate::Guest;
use crate::compare::Compare;
use crate::fault::LookFault;
use crate::subject::Subject;
use memory_pages::PageSource;
use page_model::Page;

/// A page, by its guest's number and its own.
#[derive(Clone, Copy)]
pub(crate) struct Place {
    pub(crate) guest: usize,
    pub(crate) page: u32,
}

/// Finds the page that has this number among all.
pub(crate) fn place_of<S: PageSource>(guests: &[Guest<S>], number: u32) -> Place
    requires { number < length (contents S.pages guests.now) }
    ensures { StandsAt S.pages guests.now number result }
{
    let mut left = number;
    for guest in 0..guests.len() {
        let count = guests[guest].source.count();
        if left < count {
            return Place { guest, page: left };
        }
        left -= count;
    }
    unreachable!()
}

/// Reads pages of a guest into the list until it is full, from page `first` on.
fn read_run<S: PageSource>(
    number: usize,
    guest: &Guest<S>,
    first: u32,
    into: &mut [Page],
) -> Result<(), LookFault<S::Fault>>
    requires { first + length into.old ≤ length (S.pages guest.now.source) }
    ensures { OnOk result (S.is_steady guest.now.source → into.new ≡ take (length into.old) (drop first (S.pages guest.now.source))) }
{
    match guest.source.read(first, into) {
        Ok(()) => Ok(()),
        Err(fault) => Err(LookFault::Read(number, fault)),
    }
}

/// Reads this page, which is at this place, unless it was already read.
fn read_once<S: PageSource>(
    guests: &[Guest<S>],
    place: Place,
    subject: &mut Subject,
    into: &mut [Page],
) -> Result<(), LookFault<S::Fault>>
    requires one { length into.old ≡ 1 }
    requires stands { StandsAt S.pages guests.now subject.old.number place }
    requires held { Holds (AreSteady S.is_steady guests.now) (contents S.pages guests.now) subject.old into.old }
    ensures read { OnOk result (subject.new ≡ record { number = subject.old.number; is_read = true }) }
    ensures held { OnOk result (Holds (AreSteady S.is_steady guests.now) (contents S.pages guests.now) subject.new into.new) }
{
    if !subject.is_read {
        read_run(place.guest, &guests[place.guest], place.page, into)?;
        subject.is_read = true;
    }
    Ok(())
}

/// Whether a page has the same content as the one with the number `b` among all. Their bytes are read if their marks are
/// equal and not 0, those of the first page only if they weren't read yet.
pub(crate) fn is_same_content<S: PageSource>(
    guests: &[Guest<S>],
    marks: &[u64],
    subject: &mut Subject,
    own: &mut [Page],
    other: &mut [Page],
    b: u32,
) -> Result<bool, LookFault<S::Fault>>
    requires buffers { (length own.old ≡ 1) × (length other.old ≡ 1) }
    requires a_within { subject.old.number < length (contents S.pages guests.now) }
    requires b_within { b < length (contents S.pages guests.now) }
    requires marked { length marks.now ≡ length (contents S.pages guests.now) }
    requires apart { AreSteady S.is_steady guests.now → DistinguishedBy (contents S.pages guests.now) marks.now }
    requires held { Holds (AreSteady S.is_steady guests.now) (contents S.pages guests.now) subject.old own.old }
    ensures right { IfOk result (λ same. AreSteady S.is_steady guests.now
        → same ≡ are_same (contents S.pages guests.now) subject.old.number b) }
    ensures number { OnOk result (subject.new.number ≡ subject.old.number) }
    ensures held { OnOk result (Holds (AreSteady S.is_steady guests.now) (contents S.pages guests.now) subject.new own.new) }
{
    let a = subject.number;
    if marks[a as usize] != marks[b as usize] {
        return Ok(false);
    }
    let x = place_of(guests, a);
    let y = place_of(guests, b);
    if guests[x.guest].salt != guests[y.guest].salt {
        return Ok(false);
    }
    if marks[a as usize] == 0 {
        return Ok(true);
    }
    read_once(guests, x, subject, own)?;
    read_run(y.guest, &guests[y.guest], y.page, other)?;
    Ok(own[0] == other[0])
}

/// Whether two pages, by their numbers among all, have the same mark and their guests the same salt.
fn has_same_fingerprint<S: PageSource>(guests: &[Guest<S>], marks: &[u64], a: u32, b: u32) -> bool
    requires a_within { a < length (contents S.pages guests.now) }
    requires b_within { b < length (contents S.pages guests.now) }
    requires marked { length marks.now ≡ length (contents S.pages guests.now) }
    ensures { result ≡ are_same (fingerprints (contents S.pages guests.now) marks.now) a b }
{
    if marks[a as usize] != marks[b as usize] {
        return false;
    }
    let x = place_of(guests, a);
    let y = place_of(guests, b);
    guests[x.guest].salt == guests[y.guest].salt
}

/// Whether a page is the same as the one with the number `b` among all, as `by` compares them.
pub(crate) fn is_same<S: PageSource>(
    guests: &[Guest<S>],
    marks: &[u64],
    by: Compare,
    subject: &mut Subject,
    own: &mut [Page],
    other: &mut [Page],
    b: u32,
) -> Result<bool, LookFault<S::Fault>>
    requires buffers { (length own.old ≡ 1) × (length other.old ≡ 1) }
    requires a_within { subject.old.number < length (contents S.pages guests.now) }
    requires b_within { b < length (contents S.pages guests.now) }
    requires marked { length marks.now ≡ length (contents S.pages guests.now) }
    requires apart { AreSteady S.is_steady guests.now → DistinguishedBy (contents S.pages guests.now) marks.now }
    requires held { Holds (AreSteady S.is_steady guests.now) (contents S.pages guests.now) subject.old own.old }
    ensures right { IfOk result (λ same. Sure by (AreSteady S.is_steady guests.now)
        → same ≡ are_same (seen by (contents S.pages guests.now) marks.now) subject.old.number b) }
    ensures number { OnOk result (subject.new.number ≡ subject.old.number) }
    ensures held { OnOk result (Holds (AreSteady S.is_steady guests.now) (contents S.pages guests.now) subject.new own.new) }
{
    match by {
        Compare::Marks => Ok(has_same_fingerprint(guests, marks, subject.number, b)),
        Compare::Bytes => is_same_content(guests, marks, subject, own, other, b),
    }
}
