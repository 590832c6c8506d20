//! What a test says of a row that isn't so. One `assert!` serves all rows, for each is dear to
//! prove.

use crate::spelled::Refused;
use std::process::Abort;

/// Ends the test with the text of a row, unless that is told to be so.
pub fn assert_row(rt: &impl Abort, told: Result<bool, Refused>, text: &str) {
    assert!(rt; matches!(told, Ok(true)), "{text}: {told:?}");
}

/// Ends the test with the number of a row that isn't so.
pub fn assert_number(rt: &impl Abort, is_so: bool, number: usize) {
    assert!(rt; is_so, "{number}");
}
