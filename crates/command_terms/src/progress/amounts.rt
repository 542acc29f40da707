//! How far the work is, in numbers for people.
ghost use Rattle.std.specs.Prelude.{◌≡◌};
ghost use Rattle.command_terms.specs.Amounts.{per_cent, a_second, mebibytes_a_second, seconds_left};

/// Pages of 4,096 bytes in a MiB.
pub(crate) const PAGES: u64 = 256;

/// Returns how many hundredths of the whole the part is; 100 if the whole is 0.
pub fn per_cent(part: u64, whole: u64) -> u64
    ensures { result ≡ per_cent part whole }
{
    if whole == 0 {
        return 100;
    }
    part.saturating_mul(100) / whole
}

/// Returns the rate per second of `count` items in `elapsed` milliseconds.
pub fn a_second(count: u64, elapsed: u64) -> u64
    ensures { result ≡ a_second count elapsed }
{
    if elapsed == 0 {
        return 0;
    }
    count.saturating_mul(1000) / elapsed
}

/// Returns the rate in MiB per second of `pages` pages in `elapsed` milliseconds.
pub fn mebibytes_a_second(pages: u64, elapsed: u64) -> u64
    ensures { result ≡ mebibytes_a_second pages elapsed }
{
    if elapsed == 0 {
        return 0;
    }
    pages.saturating_mul(1000) / PAGES / elapsed
}

/// Returns the seconds until all is done, rounded up, if the rest takes as long as what was done; `None` if nothing was.
pub fn seconds_left(done: u64, total: u64, elapsed: u64) -> Option<u64>
    ensures { result ≡ seconds_left done total elapsed }
{
    if done == 0 {
        return None;
    }
    let left = total.saturating_sub(done);
    let time = left.saturating_mul(elapsed) / done;
    Some(time.div_ceil(1000))
}
