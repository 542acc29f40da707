//! A journal, and texts with what an engine writes for them.

/// A text, and what an engine writes for it.
#[derive(Clone, Copy)]
pub struct Row {
    pub text: &'static str,
    pub output: &'static str,
}

/// A journal of loads, most of them of zeros.
pub const ZEROS: &str = "\
    pageshare journal 1\n\
    frames 4\n\
    pages 2\n\
    0 store 0 0 6869\n\
    0 load 0 0 2\n\
    0 load 0 100 2\n\
    0 load 1 0 1\n\
    0 close\n\
    end 5\n";
