//! Why there is no estimate, where neither the system nor an image's form is the cause.
ghost use Rattle.std.specs.Prelude.{Some};
ghost use Rattle.command_terms.specs.Estimates.{cause_text};

use std::fmt::{self, Display, Formatter};

/// What is wrong with an image, or with all of them together.
#[derive(Clone, Copy, Debug, PartialEq, Eq)]
pub enum ImageCause {
    /// It isn't a file with a length; it is a device, for example.
    NoFile,
    /// The file was changed while it was read.
    Changed,
    /// With this image there are more than 4,294,967,295 pages.
    TooManyPages,
    /// Memory was refused.
    OutOfMemory,
}

impl Display for ImageCause {
    ghost output = { λ cause. Some (cause_text cause) };

    fn fmt<W: fmt::Write>(&self, f: &mut Formatter<W>) -> fmt::Result {
        match *self {
            ImageCause::NoFile => f.write_str("not a regular file"),
            ImageCause::Changed => f.write_str("changed while it was read"),
            ImageCause::TooManyPages => f.write_str("more than 4,294,967,295 pages in all"),
            ImageCause::OutOfMemory => f.write_str("out of memory"),
        }
    }
}
