//! What is asked of an estimate, and what it calls its images.
ghost use Rattle.std.specs.Prelude.{◌≡◌, ◌+◌, ◌-◌, ◌^◌, min, max, unwrap_or, slice_get, vec_len};
ghost use Rattle.command_terms.specs.Estimates.{image_named, process_numbered};

use crate::progress::Drawn;

/// The most threads that read.
pub const MOST_WORKERS: u32 = 64;

/// What an estimate is to be made of, and how.
#[derive(Debug, Drop, PartialEq, Eq)]
pub struct EstimateWords<'a> {
    /// The paths of the images, guest 0's first.
    pub images: Vec<&'a str>,
    /// The numbers of the processes, whose guests come behind those of the images.
    pub processes: Vec<u32>,
    /// Whether all memory of the processes is read, and not only what they offered for sharing.
    pub all_memory: bool,
    /// A salt for each guest; none where all are 0.
    pub salts: Vec<u32>,
    /// How many threads read, if the words say so.
    pub workers: Option<u32>,
    /// Whether each image is raw, whatever it begins with.
    pub raw: bool,
    pub json: bool,
    /// Whether the table is in pages, and not in MiB.
    pub in_pages: bool,
    /// Where the picture goes.
    pub svg: Option<&'a str>,
    pub progress: Drawn,
}

impl<'a> EstimateWords<'a> {
    /// Returns the salt of a guest: 0 if none was given.
    pub fn salt_of(&self, guest: usize) -> u32
        ensures { result ≡ unwrap_or (slice_get self.now.salts.items guest) 0 }
    {
        self.salts.get(guest).copied().unwrap_or(0)
    }

    /// Returns what a fault calls a guest's image: its path, or `estimate` if there is no such image.
    pub fn image_of(&self, guest: usize) -> &'a str
        ensures { result.now ≡ image_named self.now.images.items guest }
    {
        self.images.get(guest).copied().unwrap_or("estimate")
    }

    /// Returns the number of the process that a guest runs in, if it is no image's.
    pub fn process_of(&self, guest: usize) -> Option<u32>
        ensures { result ≡ process_numbered (vec_len self.now.images) self.now.processes.items guest }
    {
        let at = guest.checked_sub(self.images.len())?;
        self.processes.get(at).copied()
    }

    /// Returns how many guests there are.
    pub fn guests(&self) -> usize
        ensures { result ≡ min (vec_len self.now.images + vec_len self.now.processes) (2 ^ 64 - 1) }
    {
        self.images.len().saturating_add(self.processes.len())
    }

    /// Returns how many guests there are behind the first.
    pub fn others(&self) -> usize
        ensures { result ≡ min (vec_len self.now.images + vec_len self.now.processes) (2 ^ 64 - 1) - 1 }
    {
        self.guests().saturating_sub(1)
    }
}

/// Returns how many threads read, by how many were asked for or how many processors there are: 1 to `MOST_WORKERS`.
pub fn worker_count(wanted: u32) -> u32
    ensures { result ≡ max 1 (min wanted MOST_WORKERS) }
{
    wanted.clamp(1, MOST_WORKERS)
}
