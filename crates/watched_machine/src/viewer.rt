//! Viewers, which are shown how a run goes on.
use page_model::Report;

/// Is shown the reports of a run, so that a person can see how far it is. It returns nothing, and no contract says what a
/// viewer does.
pub trait Viewer {
    /// Shows what the machine counted in the report that was published last. It is called ten times a second in a separate
    /// thread, and a last time on the calling thread, with the report of the whole run.
    fn show(&self, report: &Report);
}
