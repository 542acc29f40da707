//! How pages are split among workers.
ghost use Rattle.std.specs.Prelude.{ℕ, ◌≡◌, ◌*◌, ◌<◌, ◌≤◌, max};
ghost use Rattle.std.specs.Int.{div_ceil};
ghost use Rattle.memory_pages.specs.declared.split.TheConstants.{RUN};

/// How many pages are read at once.
pub const RUN: u32 = 64;

/// A split of pages into `parts` parts of `size` pages each; the last may have fewer.
#[derive(Clone, Copy)]
pub struct Split {
    /// How many pages a part has.
    pub size: u32,
    /// How many parts there are.
    pub parts: usize,
}

/// Splits `count` pages into parts of equal size, at most one for each worker; fewer of them if there are few pages.
pub fn split_among(workers: u32, count: u32) -> Split
    requires { 1 ≤ workers }
    ensures sizes { result.size ≡ max (div_ceil count workers) RUN }
    ensures parts { result.parts ≡ div_ceil count result.size }
    ensures size { 1 ≤ result.size }
    ensures all { count ≤ result.size * result.parts }
    ensures begins { (n : ℕ) → n < result.parts → result.size * n < count }
{
    let size = count.div_ceil(workers).max(RUN);
    let parts = count.div_ceil(size) as usize;
    Split { size, parts }
}
