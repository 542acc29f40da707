//! What is noted of pages in a row, by its number.
ghost use Rattle.std.specs.Prelude.{◌≡◌};
ghost use Rattle.pageshare_window_c.specs.ProcessPages.{notice_by, notice_of_places};

use process_lender::Notice;
use window_pages::WindowFacts;

/// What has become of pages in a row.
#[repr(C)]
#[derive(Clone, Copy)]
pub struct ProcessNotice {
    /// The number of what it is.
    pub kind: u8,
    /// Of zeros that were mapped: the system let be said of them what is said of the window.
    pub flag: bool,
    /// Of frames that were mapped: the number of the first one.
    pub frame: u32,
    /// Of pages that are called home: what is so of them besides.
    pub why: WindowFacts,
}

// Returns what has become of the pages' places, by a number up to 7.
fn notice_of_places(notice: &ProcessNotice) -> Option<Notice>
    ensures { result ≡ notice_of_places notice.now }
{
    match notice.kind {
        1 => Some(Notice::Covered(notice.frame)),
        2 => Some(Notice::Uncovered),
        3 => Some(Notice::MovedThere),
        4 => Some(Notice::ZerosMapped(notice.flag)),
        5 => Some(Notice::Unmapped),
        6 => Some(Notice::Detached),
        7 => Some(Notice::OneMemory),
        _ => None,
    }
}

// Returns what has become of pages. No other number is that of a notice.
pub(crate) fn notice_by(notice: &ProcessNotice) -> Option<Notice>
    ensures { result ≡ notice_by notice.now }
{
    match notice.kind {
        8 => Some(Notice::GivenUp),
        9 => Some(Notice::Left),
        10 => Some(Notice::MovedHome),
        11 => Some(Notice::CopiedHome),
        12 => Some(Notice::RefusedHome),
        13 => Some(Notice::CalledHome(notice.why)),
        _ => notice_of_places(notice),
    }
}
