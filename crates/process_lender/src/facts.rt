//! What is so of a process and of its windows.

/// What is so of a process, as far as it bears on what is lent of its windows.
#[repr(C)]
#[derive(Clone, Copy)]
pub struct ProcessFacts {
    /// How many mappings its windows may take in all.
    pub most: u64,
    /// How many transfers aren't counted at their pages, and may be of any page.
    pub elsewhere: u64,
    /// Devices may hold memory of any page that is a copy over a frame, for all that is known.
    pub may_pin: bool,
    /// Memory of the process is locked.
    pub locked: bool,
    /// Nothing is lent of any window any more.
    pub is_over: bool,
}

/// What is so of a window as long as it is one.
#[repr(C)]
#[derive(Clone, Copy)]
pub struct WindowState {
    /// A child of a fork would have its pages.
    pub inherited: bool,
    /// Nothing is lent of it any more.
    pub ends: bool,
}
