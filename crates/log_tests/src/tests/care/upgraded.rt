//! Upgrades of logs that were recovered from worked segments of format 1.

use super::steps::Step::{Add, Bytes, NotUpgraded, Page, Stands, Upgrades, Versions};
use super::steps::{Course, Step, walked};
use Piece::{Behind, Torn, Whole};
use bw_care::CleanFault;
use bw_log::LogFault;
use test_boxes::{Kept, LEAST, Piece};
use test_kit::tables::{WrongStep, tables_go};
use test_kit::vectors::{
    FIRST, OLD_BEHIND_SECOND, OLD_FIRST, OLD_GREATEST, OLD_SECOND, OLD_THIRD_LOST, OLD_THIRD_NEWER,
    OLD_THIRD_OLDER, THIRD_OLDER, UPGRADED,
};

/// One segment with one page, and no second upgrade.
const ONE: &[Step] = &[
    Versions(&[(1, 1)]),
    Upgrades(1, 1, 1),
    Bytes(2, UPGRADED),
    Versions(&[(2, 2)]),
    Page(1, "1 : k=v;"),
    Stands(1, 0, 3),
    NotUpgraded(CleanFault::NothingOld),
];

/// Three segments, whose page was last set in the first.
const THREE: &[Step] = &[
    Versions(&[(1, 1), (1, 2), (1, 3)]),
    Upgrades(3, 1, 1),
    Versions(&[(2, 4)]),
    Page(1, "1 : j=2 k=3;"),
    NotUpgraded(CleanFault::NothingOld),
];

/// Two pages of two segments stand in one frame.
const TWO_PAGES: &[Step] = &[
    Upgrades(2, 2, 1),
    Page(1, "1 : a=1 b=2 bz=6;"),
    Page(2, "2 c: c=3 d=4 e=5;"),
    Stands(1, 0, 8),
];

/// A log that went on in format 2: its open segment takes the frame.
const WENT_ON: &[Step] = &[
    Versions(&[(1, 1), (2, 2)]),
    Upgrades(1, 1, 1),
    Versions(&[(2, 3)]),
    Page(1, "1 : j=2 k=v;"),
    Stands(1, 1, 4),
];

/// The page stands in a segment of format 2: nothing is written.
const STANDS_ALREADY: &[Step] = &[
    Versions(&[(1, 1), (2, 2)]),
    Upgrades(1, 0, 0),
    Bytes(2, UPGRADED),
    Stands(1, 0, 3),
];

/// A log without a segment of format 1, and one whose frame has no number.
const NOTHING: &[Step] = &[
    Versions(&[(2, 1)]),
    NotUpgraded(CleanFault::NothingOld),
    Stands(1, 1, 2),
];

const SPENT: &[Step] = &[
    NotUpgraded(CleanFault::Log(LogFault::Spent)),
    Versions(&[(1, u64::MAX)]),
    Page(1, "1 :;"),
];

/// No spare is left; with a segment more the same call upgrades.
const NO_SPARE: &[Step] = &[
    NotUpgraded(CleanFault::Log(LogFault::NoSegment)),
    Page(1, "1 : k=v;"),
    Stands(1, 0, 2),
    Add,
    Upgrades(1, 1, 1),
    Stands(1, 0, 3),
];

/// The append of the upgrade fails: no box is dropped, the page is as before, and the log is
/// Failed.
const FAILED: &[Step] = &[
    NotUpgraded(CleanFault::Log(LogFault::Device { lease: 1 })),
    Page(1, "1 : k=v;"),
    NotUpgraded(CleanFault::Log(LogFault::Failed)),
];

/// The first vector in format 1, and a spare.
const FIRST_AND_SPARE: &[Kept] = &[
    (Whole(OLD_FIRST), LEAST, false),
    (Torn(FIRST, 0), LEAST, true),
];

const TABLES: &[Course] = &[
    Course(FIRST_AND_SPARE, ONE),
    Course(
        &[
            (Behind(OLD_FIRST, &[0x46]), LEAST, false),
            (Torn(FIRST, 0), LEAST, false),
        ],
        ONE,
    ),
    Course(
        &[
            (Torn(OLD_THIRD_NEWER, 68), LEAST, false),
            (Torn(FIRST, 0), LEAST, false),
            (Whole(OLD_THIRD_OLDER), LEAST, false),
            (Whole(OLD_THIRD_LOST), LEAST, false),
        ],
        THREE,
    ),
    Course(
        &[
            (Whole(OLD_SECOND), LEAST, false),
            (Whole(OLD_BEHIND_SECOND), LEAST, false),
            (Torn(FIRST, 0), LEAST, false),
        ],
        TWO_PAGES,
    ),
    Course(
        &[
            (Whole(OLD_FIRST), LEAST, false),
            (Whole(THIRD_OLDER), LEAST, false),
            (Torn(FIRST, 0), LEAST, false),
        ],
        WENT_ON,
    ),
    Course(
        &[
            (Whole(OLD_FIRST), LEAST, false),
            (Whole(UPGRADED), LEAST, false),
        ],
        STANDS_ALREADY,
    ),
    Course(
        &[(Whole(FIRST), LEAST, false), (Torn(FIRST, 0), LEAST, false)],
        NOTHING,
    ),
    Course(
        &[
            (Whole(OLD_GREATEST), LEAST, false),
            (Torn(FIRST, 0), LEAST, false),
        ],
        SPENT,
    ),
    Course(&[(Whole(OLD_FIRST), 76, false)], NO_SPARE),
];

#[test]
fn upgrades_go_as_told(rt: HostRuntime) -> Result<(), WrongStep> {
    tables_go(rt.alloc(), TABLES)
}

#[test]
fn a_failed_append_of_the_upgrade_drops_no_box(rt: HostRuntime) -> Result<(), WrongStep> {
    // The header of the new segment has 24 bytes, and its frame 33; each number of them is kept.
    for keep in 0..=57usize {
        let (calls, kept) = if keep <= 24 {
            (0, keep)
        } else {
            (1, keep - 24)
        };
        if let Some(step) = walked(rt.alloc(), FIRST_AND_SPARE, (calls, kept as u64), FAILED) {
            return Err(WrongStep(keep, step));
        }
    }
    Ok(())
}
