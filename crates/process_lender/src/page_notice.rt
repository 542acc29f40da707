//! What is noted of one page.

/// What is noted of one page.
#[derive(Clone, Copy)]
pub enum PageNotice {
    /// A host is to be asked about it at once. It doesn't count as one that could be shared.
    AskedAtOnce,
    /// It was to be held, and was, or wasn't. One that wasn't is tried again later.
    Held(bool),
    /// It was given back as zeros and has no memory, or it has memory again. Of a page over a frame this isn't noted.
    GivenBack(bool),
}
