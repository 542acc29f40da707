//! A content that files list, and its holders.
ghost use Rattle.std.specs.Prelude.{◌≡◌, nat_lt, if◌then◌else◌};

/// A file that lists a content.
#[derive(Clone, Copy)]
pub(crate) struct Holder {
    pub(crate) file: u32,
    /// How many of the guest's pages have the content.
    pub(crate) copies: u64,
    /// How many of them are pages of zeros.
    pub(crate) zero: u64,
}

/// What all files together list of a content.
#[derive(Clone, Copy)]
pub(crate) struct Content {
    /// How many pages have it.
    pub(crate) copies: u64,
    /// How many of them are pages of zeros.
    pub(crate) zero: u64,
    /// How many files list it.
    pub(crate) holders: u64,
}

impl Content {
    /// Whether it is the content of a page of zeros.
    pub(crate) fn is_zeros(&self) -> bool
        ensures { result ≡ nat_lt 0 self.now.zero }
    {
        self.zero > 0
    }

    /// How many pages have it, if some page shares it with another.
    pub(crate) fn shared(&self, copies: u64) -> u64
        ensures { result ≡ (if nat_lt 1 self.now.copies then copies else 0) }
    {
        if self.copies > 1 { copies } else { 0 }
    }
}
