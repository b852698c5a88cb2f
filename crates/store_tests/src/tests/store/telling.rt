//! How a walk went is said.

use std::process::Abort;
use test_subjects::subject::Over;

/// All tables went as expected; a failure says over which of the two one did not, the first that
/// did not, and its step.
pub(super) fn all_went(rt: &impl Abort, over: Over, wrong: Option<(usize, usize)>) {
    assert_eq!(rt; (over, wrong), (over, None));
}

/// All steps went as expected; a failure says over which of the two one did not, and the first.
pub(super) fn went(rt: &impl Abort, over: Over, wrong: Option<usize>) {
    assert_eq!(rt; (over, wrong), (over, None));
}

/// This holds; a failure says over which of the two it does not.
pub(super) fn holds(rt: &impl Abort, over: Over, said: bool) {
    assert_eq!(rt; (over, said), (over, true));
}
