//! What recovery says of files: of worked ones, of what a store left, and of what a cleaning left.

ghost use Rattle.bw_care.specs.Found.{IsRecovered};

use super::steps::Act::{Bytes, Cleans, Make, Tells};
use super::steps::Told::Done;
use super::steps::{Act, Row, Stand, at, is_told};
use super::stored::is_given_up;
use super::watching::WatchedFile;
use super::{Watched, clear};
use bw_care::{RecoverCause, Recovered, recover};
use bw_device::{Desk, Segment};
use bw_file::Folder;
use bw_page::Leaves;
use test_kit::vectors::SECOND;

/// What recovery says of a folder.
#[derive(Clone, Copy)]
pub(super) enum Said {
    /// The first and the last frame, tail bytes, live segments, spares, boxes dropped, and the
    /// pairs of its one page.
    Found(u64, u64, u64, u32, u32, u32, &'static [(&'static str, &'static str)]),
    Fault(RecoverCause),
}

use RecoverCause::{BadBytes, Empty};
use Said::{Fault, Found};

/// One frame: the empty page 1, and a record that puts k=v. Two bytes of 0 follow, and a stray one.
const FIRST: &str =
    "42574c4f475347320100000000000000040000000000010046524d3201000000000000002100000002000000\
    02010000000000000101000000010000000000000000000000010001016b010076000058";

/// The words "This is no segment of a log.".
const TEXT: &str = "54686973206973206e6f207365676d656e74206f662061206c6f672e";

const KV: &[(&str, &str)] = &[("k", "v")];

const ABCD: &[(&str, &str)] = &[("a", "1"), ("b", "2"), ("c", "3"), ("d", "4")];

/// The files of a folder by their leases, each so many first bytes of these, which are in hex;
/// whether the older of two segments is given up then, and its file emptied; and what is said of so
/// many files.
#[derive(Drop)]
pub(super) struct Worked(
    pub(super) &'static str,
    pub(super) &'static [(&'static str, usize)],
    pub(super) Option<bool>,
    pub(super) usize,
    pub(super) Said,
);

/// Files whole, torn at the end, without a frame, with a part of a header, and with bytes that are
/// no segment's.
const WORKED: &[Worked] = &[
    Worked(
        "worked-whole",
        &[(FIRST, 77)],
        None,
        1,
        Found(1, 1, 0, 1, 0, 0, KV),
    ),
    Worked(
        "worked-torn",
        &[(SECOND, 296)],
        None,
        1,
        Found(1, 4, 84, 1, 0, 0, ABCD),
    ),
    Worked(
        "worked-one-of-three",
        &[(FIRST, 0), (FIRST, 77), (FIRST, 3)],
        None,
        3,
        Found(1, 1, 0, 1, 1, 1, KV),
    ),
    Worked("worked-no-file", &[], None, 0, Fault(Empty)),
    Worked("worked-empty", &[(FIRST, 0)], None, 1, Fault(Empty)),
    Worked(
        "worked-header",
        &[(FIRST, 24), (FIRST, 0)],
        None,
        2,
        Fault(Empty),
    ),
    Worked(
        "worked-text",
        &[(TEXT, 28)],
        None,
        1,
        Fault(BadBytes { segment: 0, at: 0 }),
    ),
    Worked(
        "worked-text-behind",
        &[(FIRST, 77), (TEXT, 28)],
        None,
        2,
        Fault(BadBytes { segment: 1, at: 0 }),
    ),
    Worked(
        "worked-stray",
        &[(FIRST, 79)],
        None,
        1,
        Fault(BadBytes { segment: 0, at: 77 }),
    ),
];

/// The names of the first files.
const NAMES: [&str; 3] = ["segment-0000.bw", "segment-0001.bw", "segment-0002.bw"];

// Whether a step goes well that makes no call of its own.
fn is_done(stand: &mut Stand, act: Act) -> bool {
    is_told(stand, &Row(act, Done, ""))
}

// Whether this is said of the files, and a second time: what one opening read, a later one reads
// too.
fn is_worked(stand: &mut Stand, worked: &Worked) -> bool {
    let Worked(_, files, given_up, boxes, told) = worked;
    let mut went = is_done(stand, Make);
    for (name, (hex, n)) in NAMES.iter().zip(*files) {
        went &= is_done(stand, Bytes(*name, *hex, *n));
    }
    if let Some(empties) = given_up {
        went &= is_done(stand, Cleans(*empties));
    }
    went & is_done(stand, Tells(*boxes, *told)) & is_done(stand, Tells(*boxes, *told))
}

/// The first of these whose files, in a folder of their own, do not get this said of them.
pub(super) fn wrong_worked(rt: HostRuntime, all: &[Worked]) -> Option<(&'static str, usize)> {
    for (i, worked) in all.iter().enumerate() {
        let went = match at(rt, worked.0) {
            Some(mut stand) => is_worked(&mut stand, worked),
            None => false,
        };
        clear(rt, worked.0);
        if !went {
            return Some((worked.0, i));
        }
    }
    None
}

// One more box, over the file of the next lease.
fn box_of(
    rt: &Watched,
    folder: &mut Folder<WatchedFile>,
    desk: &mut Desk,
) -> Option<Box<dyn Segment>> {
    let segment = folder.segment(rt, desk.take().ok()?, 65_560).ok()?;
    Some(Box::new(rt.alloc(), segment).ok()?)
}

/// Boxes over the files of leases 0 to n - 1, settled.
pub(super) fn boxes_of(
    rt: &Watched,
    folder: &mut Folder<WatchedFile>,
    n: usize,
) -> Option<Vec<Box<dyn Segment>>> {
    let mut desk = Desk::new(rt.alloc(), 8).ok()?;
    let mut boxes: Vec<Box<dyn Segment>> = Vec::new(rt.alloc());
    for _ in 0..n {
        boxes.push(box_of(rt, folder, &mut desk)?).ok()?;
    }
    folder.settle(rt).ok()?;
    Some(boxes)
}

// Whether there is one page, with these pairs.
fn is_page(leaves: &Leaves, told: &[(&'static str, &'static str)]) -> bool {
    let Some(leaf) = leaves.page(1) else {
        return false;
    };
    let pairs = leaf.pairs.as_slice();
    for (pair, (key, value)) in pairs.iter().zip(told) {
        if pair.key() != key.as_bytes() || pair.value() != value.as_bytes() {
            return false;
        }
    }
    leaves.count() == 1 && pairs.len() == told.len()
}

// Whether it was found as expected.
fn is_found(found: Recovered, told: &Said) -> bool
    requires { IsRecovered (λ b. holding (b.vtable, b.value)) found }
{
    let Found(first, last, tail, live, spares, dropped, pairs) = told else {
        return false;
    };
    let numbers = (found.first == *first) & (found.last == *last) & (found.tail == *tail);
    let counts = (found.log.live() == *live)
        & (found.log.spares() == *spares)
        & (found.dropped == *dropped);
    let is_shown = match found.warm() {
        Ok(found) => is_page(&found.leaves, *pairs),
        Err(_) => false,
    };
    numbers & counts & is_shown
}

fn is_fault(cause: RecoverCause, act: &Act) -> bool {
    match act {
        Tells(_, Fault(told)) => cause == *told,
        _ => false,
    }
}

// Whether the step goes well over what is recovered from these boxes of the folder.
fn goes_with(
    rt: &Watched,
    folder: &Folder<WatchedFile>,
    boxes: Vec<Box<dyn Segment>>,
    act: &Act,
) -> bool {
    match recover(rt.alloc(), boxes) {
        Ok(found) => match act {
            Tells(_, told) => is_found(found, told),
            Cleans(empties) => {
                let mut found = found;
                is_given_up(rt, folder, &mut found.log, *empties)
            }
            _ => false,
        },
        Err(fault) => is_fault(fault.cause, act),
    }
}

/// Whether the step goes well in the folder, which is opened for it, over boxes of its first
/// leases.
pub(super) fn goes_opened(rt: &Watched, act: &Act) -> bool {
    let n = match act {
        Tells(n, _) => *n,
        _ => 3,
    };
    let Ok(mut folder) = Folder::open(rt, rt.path) else {
        return false;
    };
    match boxes_of(rt, &mut folder, n) {
        Some(boxes) => goes_with(rt, &folder, boxes, act),
        None => false,
    }
}

#[test]
fn worked_files_are_told(rt: HostRuntime) {
    assert_eq!(rt; wrong_worked(rt, WORKED), None);
}
