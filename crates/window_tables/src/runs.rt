//! Runs of pages of one kind.
ghost use Rattle.std.specs.Prelude.{◌≡◌, ◌+◌, ◌^◌, ◌<◌, ◌≤◌, length, take};
ghost use Rattle.page_lender.specs.Decisions.{is_private};
ghost use Rattle.window_tables.specs.Homes.{comes_home};
ghost use Rattle.window_tables.specs.Runs.{counts_as, first_run, has, if_looked_for, is_kind, is_left_over, kind_number, next_run, place_of, run_from, run_of};

use crate::homes::is_homing;
use page_lender::Belief;
use page_looks::finds::looks_of;
use window_pages::WindowPage;

/// A kind of pages. One that is `Coming` or `LeftOver` is of its place's kind as well.
#[derive(Clone, Copy, Debug, PartialEq, Eq)]
pub enum PageKind {
    /// It is in the window, and has memory of its own.
    Own,
    /// It is in the window, and a frame lies under it.
    InFrames,
    /// It has left the window, and a frame lies under it still.
    Left,
    /// It has left the window, and no frame lies under it.
    Gone,
    /// It comes home by a copy where it is: it shows a frame that it is to show no more, or one of a lender that is gone.
    Coming,
    /// It has a copy of its own over a frame, and was asked about in vain most often.
    LeftOver,
}

/// Pages in a row, of one kind.
#[repr(C)]
#[derive(Clone, Copy)]
pub struct PageRun {
    /// The first one.
    pub first: usize,
    /// How many they are.
    pub count: usize,
    /// The number of their kind.
    pub kind: u8,
}

// Returns the number of a kind, which is one bit.
fn kind_number(kind: PageKind) -> u8
    ensures value { result ≡ kind_number kind }
{
    match kind {
        PageKind::Own => 1,
        PageKind::InFrames => 2,
        PageKind::Left => 4,
        PageKind::Gone => 8,
        PageKind::Coming => 16,
        PageKind::LeftOver => 32,
    }
}

// Returns the kind of a page's place, by whether a frame lies under it, and whether it has left the window.
fn place_of(over: bool, out: bool) -> PageKind
    ensures { result ≡ place_of over out }
{
    match (over, out) {
        (false, false) => PageKind::Own,
        (true, false) => PageKind::InFrames,
        (true, true) => PageKind::Left,
        (false, true) => PageKind::Gone,
    }
}

// Returns whether nothing is lent of a page of which this is believed.
fn is_private(belief: Belief) -> bool
    ensures { result ≡ is_private belief }
{
    match belief {
        Belief::Private => true,
        Belief::Chosen => false,
        Belief::Copied => false,
        Belief::Turning(_, _) => false,
        Belief::Shown(_, _, _) => false,
        Belief::Leaving(_) => false,
    }
}

// Returns whether a page has a copy of its own over a frame, and was asked about in vain most often.
fn is_left_over(page: &WindowPage) -> bool
    ensures { result ≡ is_left_over page.now }
{
    let known = page.known();
    known.over && !known.out && !known.same && is_private(known.belief) && looks_of(page).is_again()
}

// Returns whether a page comes home by a copy where it is.
fn comes_home(page: &WindowPage) -> bool
    ensures { result ≡ comes_home page.now }
{
    let known = page.known();
    let shows = is_homing(known.belief) || (known.over && known.same);
    !known.out && shows
}

// Returns whether a sum of kinds has this one.
fn has(kinds: u8, kind: PageKind) -> bool
    ensures { result ≡ has kinds kind }
{
    match kind {
        PageKind::Own => kinds % 2 == 1,
        PageKind::InFrames => kinds / 2 % 2 == 1,
        PageKind::Left => kinds / 4 % 2 == 1,
        PageKind::Gone => kinds / 8 % 2 == 1,
        PageKind::Coming => kinds / 16 % 2 == 1,
        PageKind::LeftOver => kinds / 32 % 2 == 1,
    }
}

// Returns the number of a kind if it is looked for, and else 0.
fn if_looked_for(kinds: u8, kind: PageKind) -> u8
    ensures { result ≡ if_looked_for kinds kind }
{
    let is_one = has(kinds, kind);
    if is_one { kind_number(kind) } else { 0 }
}

// Returns as which of the kinds that are looked for a page counts; 0: as none.
fn counts_as(kinds: u8, page: &WindowPage) -> u8
    ensures { result ≡ counts_as kinds page.now }
{
    if has(kinds, PageKind::LeftOver) && is_left_over(page) {
        return kind_number(PageKind::LeftOver);
    }
    if has(kinds, PageKind::Coming) && comes_home(page) {
        return kind_number(PageKind::Coming);
    }
    let known = page.known();
    if_looked_for(kinds, place_of(known.over, known.out))
}

// Returns whether a page counts as this kind.
fn is_kind(kinds: u8, kind: u8, page: &WindowPage) -> bool
    ensures { result ≡ is_kind kinds kind page.now }
{
    counts_as(kinds, page) == kind
}

// Returns how many pages come before one that doesn't count as this kind.
fn run_of(kinds: u8, kind: u8, pages: &[WindowPage]) -> usize
    ensures value { result ≡ run_of kinds kind pages.now }
    ensures within { result ≤ length pages.now }
{
    for place in 0..pages.len() {
        let is_so = is_kind(kinds, kind, &pages[place]);
        if !is_so {
            return place;
        }
    }
    pages.len()
}

// Returns the pages before one.
fn front(pages: &[WindowPage], end: usize) -> &[WindowPage]
    ensures { result.now ≡ take end pages.now }
{
    if end >= pages.len() {
        return pages;
    }
    &pages[..end]
}

// Returns the run with which these pages begin, of which the first is at this place.
fn run_from(pages: &[WindowPage], place: usize, kinds: u8) -> Option<PageRun>
    ensures { result ≡ run_from kinds place pages.now }
{
    match pages.first() {
        None => None,
        Some(page) => {
            let kind = counts_as(kinds, page);
            Some(PageRun {
                first: place,
                count: run_of(kinds, kind, pages),
                kind,
            })
        }
    }
}

// Returns the first run of these pages, of which the first is at this place.
fn first_run(pages: &[WindowPage], place: usize, kinds: u8) -> Option<PageRun>
    requires { place + length pages.now < 2 ^ 64 }
    ensures { result ≡ first_run kinds place pages.now }
{
    let gap = run_of(kinds, 0, pages);
    run_from(&pages[gap..], place + gap, kinds)
}

/// Returns the first run of pages that count as one of these kinds, a sum of their numbers, from one page on and before another: all of them count as
/// its first page does.
pub fn next_run(pages: &[WindowPage], first: usize, end: usize, kinds: u8) -> Option<PageRun>
    ensures { result ≡ next_run kinds first end pages.now }
{
    let front = front(pages, end);
    if first >= front.len() {
        return None;
    }
    first_run(&front[first..], first, kinds)
}
