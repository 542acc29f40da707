/// How pages are distinguished, apart from the salts of their guests.
#[derive(Clone, Copy)]
pub(crate) enum Compare {
    /// By their marks.
    Marks,
    /// By their bytes, if their marks are equal.
    Bytes,
}
