//! What C gets in answer.
ghost use Rattle.std.specs.Prelude.{◌≡◌, None, Ok, Err};
ghost use Rattle.pageshare_c.specs.Codes.{code_of, count_of, status_of as status_number};
ghost use Rattle.pageshare_c.specs.Gets.{answer_of, numbers};

use c_surface::status;
use page_model::{Report, Verdict};
use share_domain::{NO_FRAME, frame_number};

/// The answer to one request.
#[repr(C)]
#[derive(Clone, Copy)]
pub struct Answer {
    /// `OK` if the request was served, and else why it was not.
    pub status: u32,
    /// The verdict's number, 1 to 18, or 0 if the request was not served.
    pub verdict: u32,
    /// For a join how many pages share the frame, for a load how many bytes were loaded, for a release 1 if the frame
    /// is free now, and else 0.
    pub count: u32,
    /// The named page's frame after the request, or [`NO_FRAME`] if it has none.
    pub frame: u32,
    /// A frame that is free since the request, or [`NO_FRAME`].
    pub freed: u32,
}

/// What a machine counts, as in a [`Report`].
#[repr(C)]
#[derive(Clone, Copy)]
pub struct Totals {
    pub entries: u32,
    pub mapped: u32,
    pub shared: u32,
    pub frames: u32,
    pub reclaimed: u32,
    pub hints: u32,
}

/// Why a call was refused, in the order in which the causes are checked.
#[derive(Clone, Copy)]
pub enum Refusal {
    /// The handle holds no machine.
    NoMachine,
    /// There is no such guest.
    NoGuest,
    /// The machine has counted 4,294,967,295 requests, as many as it can.
    Full,
    /// No byte, or more than `MAX_ACCESS_BYTES`.
    Length,
    /// The last byte would be past the page's end.
    Crosses,
    /// There is no such page.
    NoPage,
    /// The page has no frame.
    Unmapped,
}

/// Returns the number of a refusal.
pub(crate) fn status_of(refusal: Refusal) -> u32
    ensures { result ≡ status_number refusal }
{
    match refusal {
        Refusal::NoMachine => status::NO_MACHINE,
        Refusal::NoGuest => status::NO_GUEST,
        Refusal::Full => status::FULL,
        Refusal::Length => status::LENGTH,
        Refusal::Crosses => status::CROSSES,
        Refusal::NoPage => status::NO_PAGE,
        Refusal::Unmapped => status::UNMAPPED,
    }
}

fn verdict_number(verdict: &Verdict) -> u32
    ensures { result ≡ code_of verdict.now }
{
    match verdict {
        Verdict::NoPage => 1,
        Verdict::Unmapped => 2,
        Verdict::Already => 3,
        Verdict::Joined(_) => 4,
        Verdict::Paired => 5,
        Verdict::Hinted => 6,
        Verdict::Kept => 7,
        Verdict::Replaced => 8,
        Verdict::Ineligible => 9,
        Verdict::Mapped => 10,
        Verdict::Stored => 11,
        Verdict::Copied => 12,
        Verdict::Taken => 13,
        Verdict::NoFrame => 14,
        Verdict::Bytes(_) => 15,
        Verdict::Released(_) => 16,
        Verdict::Totals(_) => 17,
        Verdict::Closed => 18,
    }
}

fn count_in(verdict: &Verdict) -> u32
    ensures { result ≡ count_of verdict.now }
{
    match verdict {
        Verdict::Joined(pages) => *pages,
        Verdict::Bytes(bytes) => bytes.len() as u32,
        Verdict::Released(true) => 1,
        _ => 0,
    }
}

/// Answers a request that was not served.
pub(crate) fn refuse(refusal: Refusal) -> Answer
    ensures { result ≡ answer_of (Err refusal) None None }
{
    Answer {
        status: status_of(refusal),
        verdict: 0,
        count: 0,
        frame: NO_FRAME,
        freed: NO_FRAME,
    }
}

/// Answers a request that was served, with its verdict and the frames that the answer names.
pub(crate) fn answer_of(verdict: &Verdict, frame: Option<u32>, freed: Option<u32>) -> Answer
    ensures { result ≡ answer_of (Ok verdict.now) frame freed }
{
    Answer {
        status: status::OK,
        verdict: verdict_number(verdict),
        count: count_in(verdict),
        frame: frame_number(frame),
        freed: frame_number(freed),
    }
}

/// Returns the numbers of a report.
pub(crate) fn totals_of(report: &Report) -> Totals
    ensures { result ≡ numbers report.now }
{
    Totals {
        entries: report.entries(),
        mapped: report.mapped(),
        shared: report.shared(),
        frames: report.frames(),
        reclaimed: report.reclaimed(),
        hints: report.hints(),
    }
}
