/// Bytes of a file that hold pages; the first page begins at the first of them. If the last page isn't whole, it is
/// filled up with zeros.
#[derive(Clone, Copy, Debug, PartialEq, Eq)]
pub struct Segment {
    /// Where the bytes begin.
    pub offset: u64,
    /// How many there are.
    pub len: u64,
}
