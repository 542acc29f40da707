/// A digest, and how many pages have it.
#[derive(Clone, Copy, Debug, PartialEq, Eq)]
pub struct DigestLine {
    pub digest: u128,
    pub copies: u64,
}
