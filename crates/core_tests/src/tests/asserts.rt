//! What the tests assert by. A function is proved once, and a macro at each place where it stands.

use std::alloc::Global;
use std::fmt::{Debug, Display};
use std::process::Abort;

/// What was found is what is wanted; else the message names the row.
pub(crate) fn assert_at<R: Debug + Copy, T: PartialEq + Debug + Copy>(
    rt: &impl Abort,
    row: R,
    found: T,
    wanted: T,
) {
    assert_eq!(rt; found, wanted, "{row:?}");
}

/// The value is shown as this text.
pub(crate) fn assert_shown<D: Display>(rt: &impl Abort, alloc: Global, value: &D, text: &str) {
    let found = format!(in alloc; "{value}").expect(rt, "memory");
    assert_at(rt, "text", found.as_str(), text);
}
