// What stands after an append that failed, whatever beginning of its piece the box kept.

ghost use Rattle.std.specs.Prelude.{[], OnSome};
ghost use Rattle.log_tests.specs.OnePage.{Counts};
ghost use Rattle.test_boxes.specs.Views.{seen, IsSound};

use super::page::{begin, log_over, opening, put};
use super::walking::begun;
use bw_device::Segment;
use bw_log::{Log, LogFault};
use std::alloc::Global;
use test_boxes::is_page;
use test_kit::tables::{Table, WrongStep, tables_go};

// An append that fails: in which call of its box, over how many bytes, and of how many.
struct Row {
    calls: u64,
    before: u32,
    piece: u32,
    live: u32,
    spares: u32,
    next: u64,
    // Whether page 1 is as the first frame left it.
    is_read: bool,
}

const ROWS: &[Row] = &[
    // The first append fails in its header: the box stays a spare.
    Row {
        calls: 0,
        before: 0,
        piece: 24,
        live: 0,
        spares: 2,
        next: 1,
        is_read: false,
    },
    // The first append fails in its frame, which does not count.
    Row {
        calls: 1,
        before: 24,
        piece: 53,
        live: 1,
        spares: 1,
        next: 1,
        is_read: false,
    },
    // The second append fails in its frame: the page reads as before it.
    Row {
        calls: 2,
        before: 77,
        piece: 45,
        live: 1,
        spares: 1,
        next: 2,
        is_read: true,
    },
];

// Whether the box with lease 0, the first of the roster, has so many bytes.
fn has_len(log: Log, len: u64) -> bool
    requires { IsSound log holding }
{
    let (begun, waiting) = log.into_segments();
    let first = match begun.first() {
        Some(one) => Some(one),
        None => waiting.first(),
    };
    match first {
        Some(one) => one.lease() == 0 && one.len() == len,
        None => false,
    }
}

// Whether a failed log still says what the row has.
fn tells(log: &mut Log, row: &Row) -> bool
    requires { IsSound log.old holding }
    ensures { IsSound log.new holding }
{
    if log.live() != row.live || log.spares() != row.spares || log.limit() < 53 {
        return false;
    }
    if log.next_frame() != Some(row.next) {
        return false;
    }
    if log.ready(53, false) != Err(LogFault::Failed) {
        return false;
    }
    is_page(log, 1, "1 : k=v;") == row.is_read
}

// Whether the first append fails.
fn first_fails(alloc: Global, log: &mut Log) -> Option<bool>
    requires { Counts (seen log.old holding) [] }
    ensures { OnSome result (IsSound log.new holding) }
{
    let (frame, leaf) = opening(alloc)?;
    Some(begin(log, &frame, &leaf) == Err(LogFault::Device { lease: 0 }))
}

// Whether the second append fails.
fn second_fails(alloc: Global, log: &mut Log) -> Option<bool>
    requires { Counts (seen log.old holding) [] }
    ensures { OnSome result (IsSound log.new holding) }
{
    let mut leaf = begun(alloc, log, false)?;
    put(
        alloc,
        log,
        &mut leaf,
        b'b',
        b'2',
        Some(LogFault::Device { lease: 0 }),
    )
}

// Whether the append of the row fails.
fn fails(alloc: Global, log: &mut Log, row: &Row) -> Option<bool>
    requires { Counts (seen log.old holding) [] }
    ensures { OnSome result (IsSound log.new holding) }
{
    if row.calls < 2 {
        first_fails(alloc, log)
    } else {
        second_fails(alloc, log)
    }
}

// Whether the append of the row fails if the box keeps so many bytes of the piece, and the log then
// says what stands.
fn goes(alloc: Global, row: &Row, keep: u64) -> Option<bool> {
    let (mut log, _more) = log_over(alloc, 1, (row.calls, keep))?;
    let fails = fails(alloc, &mut log, row)?;
    let len = u64::from(row.before) + keep.min(u64::from(row.piece));
    Some(fails && tells(&mut log, row) && has_len(log, len))
}

impl Table for Row {
    // The bytes that the box kept where it does not go as expected.
    fn wrong_step(&self, alloc: Global) -> Option<usize> {
        for keep in 0..=u64::from(self.piece) + 1 {
            if goes(alloc, self, keep) != Some(true) {
                return Some(keep as usize);
            }
        }
        None
    }
}

#[test]
fn what_stands_behind_a_failed_append_is_as_told(rt: HostRuntime) -> Result<(), WrongStep> {
    tables_go(rt.alloc(), ROWS)
}
