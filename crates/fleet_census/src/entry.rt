//! An entry of a tournament.
ghost use Rattle.std.specs.Prelude.{◌≡◌, ◌<◌, ◌^◌, nat_lt};
ghost use Rattle.fleet_census.specs.Tournaments.{key, lesser};

/// The number of no file.
pub(crate) const NO_FILE: u32 = u32::MAX;

/// The next line of a file, or that there is none.
#[derive(Clone, Copy)]
pub(crate) struct Entry {
    pub(crate) digest: u128,
    pub(crate) copies: u64,
    /// The file's number, or `NO_FILE` at its end.
    pub(crate) file: u32,
}

/// The entry of a file at its end. It comes after those of all lines.
pub(crate) const AT_END: Entry = Entry {
    digest: u128::MAX,
    copies: 0,
    file: NO_FILE,
};

/// Whether an entry comes before another: by digest, and for equal digests by file.
pub(crate) fn is_before(a: Entry, b: Entry) -> bool
    ensures { result ≡ nat_lt (key a) (key b) }
{
    if a.digest == b.digest {
        a.file < b.file
    } else {
        a.digest < b.digest
    }
}

/// Returns the entry that comes first.
pub(crate) fn lesser(a: Entry, b: Entry) -> Entry
    ensures { result ≡ lesser a b }
{
    if is_before(b, a) { b } else { a }
}
