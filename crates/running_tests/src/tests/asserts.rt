//! What the tests assert by.

use std::fmt::Debug;
use std::process::Abort;

/// What was found is what is wanted; else the message names the row.
pub(crate) fn assert_at<R: Debug + Copy, T: PartialEq + Debug + Copy>(
    rt: &impl Abort,
    row: R,
    found: T,
    wanted: T,
) {
    assert_eq!(rt; found, wanted, "{row:?}");
}
