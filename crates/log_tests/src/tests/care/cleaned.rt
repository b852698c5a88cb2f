//! Cleanings of logs that were recovered from worked segments.

use super::steps::Step::{Add, Bytes, Cleans, NotCleaned, Page, Stands};
use super::steps::{Course, Step, walked};
use Piece::{Torn, Whole};
use bw_care::CleanFault;
use bw_log::LogFault;
use test_boxes::{Kept, LEAST, Piece};
use test_kit::tables::{WrongStep, tables_go};
use test_kit::vectors::{BEHIND_SECOND, SECOND, THIRD_LOST, THIRD_NEWER, THIRD_OLDER};

/// The bytes that a cleaning leaves, then one with nothing old, then none.
const TWICE: &[Step] = &[
    Cleans(1, 0, 1, 1),
    Bytes(2, THIRD_OLDER),
    Bytes(3, THIRD_NEWER),
    Page(1, "1 : j=2 k=3;"),
    Stands(2, 1, 5),
    Cleans(2, 1, 0, 0),
    NotCleaned(CleanFault::NothingOld),
];

/// Two pages of one oldest segment stand in one frame.
const TWO_PAGES: &[Step] = &[
    Cleans(1, 0, 2, 1),
    Stands(1, 1, 8),
    Page(1, "1 : a=1 b=2 bz=6;"),
    Page(2, "2 c: c=3 d=4 e=5;"),
    NotCleaned(CleanFault::NothingOld),
];

/// No spare is left; with a segment more the same call cleans.
const NO_SPARE: &[Step] = &[
    NotCleaned(CleanFault::Log(LogFault::NoSegment)),
    Page(1, "1 : j=2 k=3;"),
    Stands(3, 0, 4),
    Add,
    Cleans(1, 0, 1, 1),
    Stands(3, 0, 5),
];

/// The cleaner's append fails: no box is dropped, the page is as before, and the log is Failed.
const FAILED: &[Step] = &[
    NotCleaned(CleanFault::Log(LogFault::Device { lease: 2 })),
    Page(1, "1 : j=2 k=3;"),
    Stands(3, 1, 4),
    NotCleaned(CleanFault::Log(LogFault::Failed)),
];

/// The third vector before its cleaning, and a spare.
const THIRD: &[Kept] = &[
    (Whole(THIRD_LOST), LEAST, false),
    (Whole(THIRD_OLDER), LEAST, false),
    (Torn(THIRD_NEWER, 69), LEAST, true),
    (Torn(THIRD_NEWER, 0), LEAST, false),
];

/// The third vector before its cleaning, with no room in the newest segment and no spare.
const FULL: &[Kept] = &[
    (Whole(THIRD_LOST), LEAST, false),
    (Whole(THIRD_OLDER), LEAST, false),
    (Torn(THIRD_NEWER, 69), 69, false),
];

/// The second vector, a segment after it, and a spare.
const SECOND_AND_MORE: &[Kept] = &[
    (Whole(SECOND), LEAST, false),
    (Whole(BEHIND_SECOND), LEAST, false),
    (Torn(SECOND, 0), LEAST, false),
];

const TABLES: &[Course] = &[
    Course(THIRD, TWICE),
    Course(FULL, NO_SPARE),
    Course(SECOND_AND_MORE, TWO_PAGES),
];

#[test]
fn cleanings_go_as_told(rt: HostRuntime) -> Result<(), WrongStep> {
    tables_go(rt.alloc(), TABLES)
}

#[test]
fn a_failed_append_of_the_cleaner_drops_no_box(rt: HostRuntime) -> Result<(), WrongStep> {
    // The cleaner's frame has 38 bytes, of which each number is kept.
    for keep in 0..=38usize {
        // Two reads of a recovery, and one of the page.
        if let Some(step) = walked(rt.alloc(), THIRD, (3, keep as u64), FAILED) {
            return Err(WrongStep(keep, step));
        }
    }
    Ok(())
}
