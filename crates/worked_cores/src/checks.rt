//! What tests compare by. Each is proved once here, and not at each place that compares.
ghost use Rattle.std.specs.Prelude.{◌≡◌, true};

use std::fmt::Debug;
use std::process::Abort;

/// Ends the test where two values differ, and shows both: what was found, and what was due.
pub(crate) fn equal<T: Copy + PartialEq + Debug>(rt: &impl Abort, found: T, due: T) {
    holds_at(rt, (found, due), found == due);
}

/// Ends the test where two values differ, and shows the row of which they are, what was found, and what was due.
pub(crate) fn equal_at<R: Copy + Debug, T: Copy + PartialEq + Debug>(
    rt: &impl Abort,
    row: R,
    found: T,
    due: T,
) {
    holds_at(rt, (row, found, due), found == due);
}

/// Ends the test where a condition doesn't hold.
pub(crate) fn holds(rt: &impl Abort, is_so: bool)
    ensures { is_so ≡ true }
{
    assert!(rt; is_so);
}

/// Ends the test where a condition doesn't hold, and shows the row of which it is.
pub(crate) fn holds_at<R: Copy + Debug>(rt: &impl Abort, row: R, is_so: bool)
    ensures { is_so ≡ true }
{
    assert!(rt; is_so, "at {row:?}");
}
