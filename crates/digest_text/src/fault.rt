//! What is wrong with a digest's text.
use thiserror::Error;

/// What is wrong with a line. The causes are checked in this order.
#[derive(Clone, Copy, Debug, PartialEq, Eq, Error)]
pub enum Cause {
    /// Not six fields, a field that isn't of its form, a line of more than 256 bytes or one without its line feed.
    #[error("give six fields of their form, with commas between them and a line feed behind them")]
    Form,
    /// The first line isn't the header.
    #[error("begin with the line \"guest,salt,pages,sample,digest,copies\"")]
    Head,
    /// Another guest, salt, number of pages or sample than on the line before.
    #[error("repeat the guest, salt, pages and sample of the line before")]
    Guest,
    /// The digest isn't greater than that of the line before.
    #[error("give each digest once, rising")]
    Order,
    /// The sample doesn't keep the digest.
    #[error("give only digests that the sample keeps")]
    Sample,
    /// If all contents are kept, the copies of all lines aren't as many as the pages; otherwise they are more.
    #[error("give as many copies as there are pages, or with a sample at most that many")]
    Total,
}

/// A line that is at fault. Lines are counted from 1.
#[derive(Clone, Copy, Debug, PartialEq, Eq, Error)]
#[error("line {line}: {cause}")]
pub struct LineFault {
    pub line: u64,
    pub cause: Cause,
}
