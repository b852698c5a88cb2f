//! Folders that hold no store: the beginning of a first frame is begun anew, and anything else is
//! refused and stays as it is, to the byte.

use super::{PutAndWalk, is_first};
use bw_care::RecoverCause;
use bw_codec::limits::MIN_FRAME;
use bw_core::StoreFault;
use bw_home::{HomeFault, Options, System, with_store};
use std::fs;
use std::test::Fail;

/// What a call comes to.
enum Told {
    /// A new store, in which the course reads its pair.
    Begins,
    Refused(RecoverCause),
}

/// The bytes of two files, and what a call over them comes to.
struct Row(&'static [u8], &'static [u8], Told);

/// The header of segment 1, then of segment 2, for pages of 32 pairs and frames of 65,536 bytes.
const FIRST: &[u8] = b"BWLOGSG2\x01\0\0\0\0\0\0\0\x20\0\0\0\0\0\x01\0";

const SECOND: &[u8] = b"BWLOGSG2\x02\0\0\0\0\0\0\0\x20\0\0\0\0\0\x01\0";

/// The header of segment 1 with the beginning of a frame after it.
const TORN: &[u8] = b"BWLOGSG2\x01\0\0\0\0\0\0\0\x20\0\0\0\0\0\x01\0FRM2\x01";

/// The beginning of segment 1 in format 1, and the same with the beginning of a frame after it.
const OLD_FIRST: &[u8] = b"BWLOGSG1\x01\0\0\0\0\0\0\0\x20\0\0\0\0\x40\0\0";

const OLD_TORN: &[u8] = b"BWLOGSG1\x01\0\0\0\0\0\0\0\x20\0\0\0\0\x40\0\0FRM1\x01";

const ROWS: &[Row] = &[
    Row(b"BWLOGSG1", b"", Told::Begins),
    Row(OLD_FIRST, b"", Told::Begins),
    Row(b"", OLD_TORN, Told::Begins),
    Row(b"", b"", Told::Begins),
    Row(b"BWLOG", b"", Told::Begins),
    Row(b"", FIRST, Told::Begins),
    Row(TORN, b"", Told::Begins),
    Row(b"BWL", b"BWL", Told::Refused(RecoverCause::Empty)),
    Row(FIRST, b"BWL", Told::Refused(RecoverCause::Empty)),
    Row(SECOND, b"", Told::Refused(RecoverCause::Empty)),
    Row(
        b"",
        b"BWLOGSG3",
        Told::Refused(RecoverCause::BadBytes { segment: 1, at: 0 }),
    ),
    Row(FIRST, SECOND, Told::Refused(RecoverCause::Empty)),
];

/// Whether the file of this path has these bytes.
fn has<R: System>(rt: &R, path: &str, bytes: &[u8]) -> Result<bool, Fail> {
    let read = fs::read(rt, path)?;
    Ok(read.as_slice() == bytes)
}

// Whether the folder is as the row made it: both files, and no lock.
fn stays<R: System>(rt: &R, row: &Row) -> Result<bool, Fail> {
    let locked = fs::exists(rt, "folder_tests_rows/lock")?;
    let third = fs::exists(rt, "folder_tests_rows/segment-0002.bw")?;
    Ok(
        !locked
            && !third
            && has(rt, "folder_tests_rows/segment-0000.bw", row.0)?
            && has(rt, "folder_tests_rows/segment-0001.bw", row.1)?,
    )
}

// Whether a call over the row's files goes as expected.
fn goes<R: System>(rt: &R, row: &Row) -> Result<bool, Fail> {
    fs::create_dir(rt, "folder_tests_rows")?;
    fs::write(rt, "folder_tests_rows/segment-0000.bw", row.0)?;
    fs::write(rt, "folder_tests_rows/segment-0001.bw", row.1)?;
    let went = match with_store(rt, "folder_tests_rows", &Options::default(), PutAndWalk) {
        Ok(pair) => is_first(pair?) && matches!(row.2, Told::Begins),
        Err(HomeFault::Recovery(cause)) => match row.2 {
            Told::Begins => false,
            Told::Refused(told) => cause == told && stays(rt, row)?,
        },
        Err(_) => false,
    };
    fs::remove_dir_all(rt, "folder_tests_rows")?;
    Ok(went)
}

// The first row that goes otherwise.
fn wrong_row<R: System>(rt: &R) -> Result<Option<usize>, Fail> {
    for (i, row) in ROWS.iter().enumerate() {
        if !goes(rt, row)? {
            return Ok(Some(i));
        }
    }
    Ok(None)
}

#[test]
fn what_holds_no_store_is_refused_and_stays(rt: HostRuntime) -> Result<(), Fail> {
    assert!(&rt; wrong_row(&rt)? == None);
    Ok(())
}

/// The options of a store that nobody can open: `BadConfig`.
const NO_WRITER: Options = Options {
    writers: 0,
    queue_groups: 64,
    pairs_a_page: 32,
    frame_bytes: MIN_FRAME,
    segments: 2,
    capacity: 65_560,
    page_bytes: u64::MAX,
};

// Why the course did not run; `None` if it did.
fn fault_of<R: System>(rt: &R, path: &str, options: &Options) -> Result<Option<HomeFault>, Fail> {
    match with_store(rt, path, options, PutAndWalk) {
        Ok(pair) => {
            let _ = pair?;
            Ok(None)
        }
        Err(fault) => Ok(Some(fault)),
    }
}

#[test]
fn numbers_out_of_their_range_are_refused(rt: HostRuntime) -> Result<(), Fail> {
    let path = "folder_tests_numbers";
    let fault = fault_of(&rt, path, &NO_WRITER)?;
    assert!(&rt; matches!(fault, Some(HomeFault::Store(StoreFault::BadConfig))));
    fs::remove_dir_all(&rt, path)?;
    Ok(())
}
