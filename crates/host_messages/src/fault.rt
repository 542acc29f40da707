//! What is wrong with a packet.
use thiserror::Error;

/// Why bytes are no message, in the order in which the causes are checked.
#[derive(Clone, Copy, Debug, PartialEq, Eq, Error)]
pub enum MessageFault {
    /// There are fewer bytes than a head has.
    #[error("the packet has fewer than 8 bytes")]
    Head,
    /// This side sends no message of this kind.
    #[error("no such kind of message")]
    Kind,
    /// It is of another version of the format.
    #[error("the message is of another version")]
    Version,
    /// It lists more than 128 pages or slots.
    #[error("the message names more than 128 pages or slots")]
    Count,
    /// There are more or fewer bytes than the head says.
    #[error("the packet has another length than its head says")]
    Length,
    /// The byte of an answer is neither 0 nor 1.
    #[error("an answer is neither 0 nor 1")]
    Answer,
}
