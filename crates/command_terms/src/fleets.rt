//! What is asked of a merge of digests, and what it calls its digests.
ghost use Rattle.std.specs.Prelude.{◌≡◌, ◌-◌, vec_len};
ghost use Rattle.command_terms.specs.Fleets.{digest_named};

use crate::progress::Drawn;

/// Which digests are merged, and how their numbers are shown.
#[derive(Debug, Drop, PartialEq, Eq)]
pub struct FleetWords<'a> {
    /// The paths of the digests, guest 0's first.
    pub digests: Vec<&'a str>,
    pub json: bool,
    /// Whether the table is in pages, and not in MiB.
    pub in_pages: bool,
    /// Where what each two guests have in common goes.
    pub pairs: Option<&'a str>,
    /// The file that lists the guests' hosts.
    pub hosts: Option<&'a str>,
    pub progress: Drawn,
}

impl<'a> FleetWords<'a> {
    /// Returns what a fault calls a guest's digest: its path, or `fleet` if there is no such digest.
    pub fn digest_of(&self, guest: usize) -> &'a str
        ensures { result.now ≡ digest_named self.now.digests.items guest }
    {
        self.digests.get(guest).copied().unwrap_or("fleet")
    }

    /// Returns how many digests there are behind the first.
    pub fn others(&self) -> usize
        ensures { result ≡ vec_len self.now.digests - 1 }
    {
        self.digests.len().saturating_sub(1)
    }
}
