//! Checks of values. Each is `assert_eq!`, which costs the proof of a test more than a call does.

use std::fmt::Debug;
use std::process::Abort;

/// Checks that two values are equal.
pub fn check_same<T: PartialEq + Debug>(rt: &impl Abort, found: &T, wanted: &T) {
    assert_eq!(rt; found, wanted);
}

/// Checks that two values are equal. A failure also shows a text, as a word of the row.
pub fn check_same_at<T: PartialEq + Debug>(rt: &impl Abort, found: &T, wanted: &T, text: &str) {
    assert_eq!(rt; found, wanted, "at {text:?}");
}
