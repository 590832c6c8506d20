//! What a test says of a row that isn't so. One `assert!` serves all rows, for each is dear to
//! prove.

use std::fmt::Debug;
use std::process::Abort;

/// Ends the test with what names a row, unless that is so.
pub(crate) fn assert_row(rt: &impl Abort, is_so: bool, name: &impl Debug) {
    assert!(rt; is_so, "{name:?}");
}
