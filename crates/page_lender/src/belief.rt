//! What a lender believes of a page.

/// What a page is to show in place of memory of its own. A slot is the host's name for a loan; a frame has a number in the host's file.
#[derive(Clone, Copy, Debug, PartialEq, Eq)]
pub enum Target {
    /// The host gave this slot with this frame.
    Frame(u32, u32),
    /// Zeros: its memory is to be given back.
    Zeros,
}

/// How far a page has come on its way to a target.
#[derive(Clone, Copy, Debug, PartialEq, Eq)]
pub enum Stage {
    /// Its target is known, and nothing was done at the page.
    Ready,
    /// Writes wait.
    Held,
    /// It was equal to its target, and writes wait still.
    Equal,
    /// It isn't to show its target, and writes may wait still. Then its slot is to be released, if it has one.
    LettingGo,
}

/// Whether a page that shows its frame is to get a copy of its own.
#[derive(Clone, Copy, Debug, PartialEq, Eq)]
pub enum Homing {
    /// It isn't.
    Off,
    /// It is to get one where it is: a device may hold its memory.
    InPlace,
    /// It may get other memory.
    Elsewhere,
}

/// What the lender of a page believes of it.
#[derive(Clone, Copy, Debug, PartialEq, Eq)]
pub enum Belief {
    /// It shows no frame, the host has nothing for it, and nothing is asked.
    Private,
    /// It is to be lent.
    Chosen,
    /// Its bytes are in the lender's buffer. Its guest may have written since.
    Copied,
    /// It has come so far on its way to this target.
    Turning(Stage, Target),
    /// The frame of this slot was mapped in its place. Its guest may have written since.
    Shown(u32, u32, Homing),
    /// It shows no frame, and this slot is to be released.
    Leaving(u32),
}
