//! How the engine with threads fails, inside this crate.
use text_words::TextFault;

/// Why a script wasn't run, or why the output of its run wasn't written.
///
/// Of the causes for which a run is refused, only `NoThread` is left. A script that was read has a machine within the limits
/// and a journal with room for all requests and closes, and lack of memory is reported as a text's is.
#[derive(Clone, Copy)]
pub(crate) enum ThreadedFault {
    /// The text, or the work on it, is at fault, as in an engine without threads.
    Text(TextFault),
    /// The start of a guest's thread was refused.
    NoThread,
}
