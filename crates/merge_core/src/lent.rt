//! What becomes of whole pages.
use page_model::Verdict;

/// What became of a page that was to be lent.
#[derive(Clone, Debug, PartialEq, Eq, Drop)]
pub struct Lent {
    /// The verdict of the page's proposal; `NoPage` or `NoFrame` if its stores were refused, and then it wasn't proposed.
    pub verdict: Verdict,
    /// The frame that is free since: the one that the page had for itself, if the page now shares another.
    pub freed: Option<u32>,
}

/// The hash of a page's bytes under a salt, for a page that is to be lent ([`Core::lend`](crate::Core::lend)).
#[derive(Clone, Copy, Debug, PartialEq, Eq)]
pub struct SaltedHash {
    pub salt: u32,
    pub hash: u64,
}

/// What became of a page that was to be taken back.
#[derive(Clone, Copy, Debug, PartialEq, Eq)]
pub enum Returned {
    /// The guest has no such page.
    NoPage,
    /// The page is unmapped.
    Unmapped,
    /// The page was mapped and is unmapped now. Its frame is free since, unless other pages share it.
    Released(Option<u32>),
}
