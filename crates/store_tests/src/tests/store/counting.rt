//! What a store counts, how much of a segment is still needed, and when it pays to clean: the
//! tables.

use super::walking::{Stand, Tables, all_go};
use bw_store::{Counters, StoreFault};
use test_kit::vectors::FIRST;
use test_subjects::putting::FIVE;
use test_subjects::putting::Op::Set;
use test_subjects::steps::Step;
use test_subjects::steps::Step::{
    Clean, Counts, Each, Evict, Flush, Forget, Frame, Needed, Page, Pays, Put, Roll, Same,
    Segments, Settle, Taken, Uncleaned,
};

const NONE: Counters = Counters {
    records: 0,
    frames: 0,
    bytes: 0,
    cleaner_frames: 0,
    cleaner_bytes: 0,
    splits: 0,
    evictions: 0,
    reads: 0,
    cleanings: 0,
};

/// Three segments of a record each, of which the first was cleaned.
const CLEANED: Counters = Counters {
    records: 3,
    frames: 4,
    bytes: 253,
    cleaner_frames: 1,
    cleaner_bytes: 38,
    splits: 0,
    evictions: 1,
    reads: 1,
    cleanings: 1,
};

/// A header has 24 bytes, a frame 20 around its blocks, an empty Base 8 and each of its pairs 5
/// here, and a Delta of one put 25. The cleaner writes a Base of two pairs.
const THREE_SEGMENTS: &[Step] = &[
    Counts(NONE, 0),
    Needed(0, None),
    Pays(false),
    Taken(b"k", b"1"),
    Counts(Counters { records: 1, ..NONE }, 0),
    Flush(Some(1)),
    Counts(
        Counters {
            records: 1,
            frames: 1,
            bytes: 77,
            ..NONE
        },
        1,
    ),
    Needed(0, Some(13)),
    Needed(1, None),
    Pays(false),
    Flush(None),
    Roll,
    Taken(b"j", b"2"),
    Needed(0, Some(18)),
    Flush(Some(2)),
    Needed(1, Some(0)),
    Roll,
    Frame(b"k", b"3", 3),
    Forget(3, 3),
    Counts(
        Counters {
            records: 3,
            frames: 3,
            bytes: 215,
            ..NONE
        },
        3,
    ),
    Evict(1, Ok(true)),
    Evict(1, Ok(false)),
    Needed(0, Some(18)),
    Pays(false),
    Page(1, "1 : j=2 k=3"),
    Clean(1, 0, 1, 1),
    Counts(CLEANED, 3),
    Needed(0, Some(0)),
    Needed(1, Some(18)),
    Clean(2, 1, 0, 0),
    Uncleaned(StoreFault::NothingOld),
    Counts(
        Counters {
            cleanings: 2,
            ..CLEANED
        },
        3,
    ),
];

/// Five pairs are cut: a Delta of five puts has 49 bytes, and a Split with a low of one byte and
/// three pairs 40. Both pages are needed.
const CUT: &[Step] = &[
    Each(0, FIVE),
    Settle(5),
    Counts(
        Counters {
            records: 5,
            frames: 1,
            bytes: 141,
            splits: 1,
            ..NONE
        },
        1,
    ),
    Needed(0, Some(42)),
    Evict(2, Ok(true)),
    Needed(0, Some(42)),
];

/// Eight puts of a key with 60 bytes each are 65 bytes each, and the segment has 591; of it a Base
/// of 77 bytes is needed.
const UPDATED: &[Step] = &[
    Same(0, b"k", 8, 60),
    Settle(8),
    Pays(false),
    Roll,
    Put(0, b"j", b"2"),
    Settle(9),
    Needed(0, Some(77)),
    Pays(true),
    Clean(1, 0, 1, 1),
    Pays(false),
    Counts(
        Counters {
            records: 9,
            frames: 3,
            bytes: 757,
            cleaner_frames: 1,
            cleaner_bytes: 97,
            cleanings: 1,
            ..NONE
        },
        2,
    ),
];

/// What was there before a store was opened again is not counted.
const OPENED_AGAIN: &[Step] = &[
    Counts(NONE, 0),
    Needed(0, Some(13)),
    Taken(b"j", b"2"),
    Counts(Counters { records: 1, ..NONE }, 0),
];

const TABLES: &[Tables] = &[
    (Stand::Boxes(4, 8), &[THREE_SEGMENTS, CUT, UPDATED]),
    (Stand::Bytes(&[FIRST]), &[OPENED_AGAIN]),
];

#[test]
fn what_was_done_is_counted(rt: HostRuntime) {
    all_go(&rt, TABLES);
}

/// A header, a frame and the read of a page pass; the cleaner's append fails.
const FAILED: &[Step] = &[
    Segments(1, &[Set(b"k", b"1"), Set(b"j", b"2")]),
    Uncleaned(StoreFault::Device { lease: 1 }),
    Counts(
        Counters {
            records: 2,
            frames: 2,
            bytes: 146,
            ..NONE
        },
        2,
    ),
];

const FAILS: &[Tables] = &[(Stand::Fuse(1, (3, 3), (0, 0)), &[FAILED])];

#[test]
fn a_frame_that_failed_is_not_counted(rt: HostRuntime) {
    all_go(&rt, FAILS);
}
