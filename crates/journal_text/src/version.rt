//! The version of a text.

/// Which version a text is of. In version 1 every salt is 0; version 2 has a line with each guest's salt.
#[derive(Clone, Copy)]
pub enum Version {
    One,
    Two,
}
