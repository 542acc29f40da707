//! A look.
ghost use Rattle.std.specs.Prelude.{◌≡◌};
ghost use Rattle.pageshare_window_c.specs.Looks.{config_of};

use page_looks::idle::LookConfig;

/// A look.
#[repr(C)]
#[derive(Clone, Copy)]
pub struct WindowLook {
    /// The fingerprint of a page of zeros.
    pub zeros: u64,
    /// The system leaves the memory of the window's pages before this one alone.
    pub ready: usize,
    /// The number of the look.
    pub look: u32,
    /// A page that was asked about most often is asked about again at one look in so many; 0 counts as 8.
    pub turns: u16,
    /// Idle pages that a look leaves out at most for each one that it takes, where a part rests.
    pub rest_most: u8,
    /// The look comes back to a part, for the pages that may be idle soon.
    pub is_return: bool,
}

// Returns how often a look takes what.
pub(crate) fn config_of(look: &WindowLook) -> LookConfig
    ensures { result ≡ config_of look.now }
{
    LookConfig {
        turns: look.turns,
        rest_most: look.rest_most,
    }
}
