// What no clause says: that calls succeed if memory is there, on a log that has no frame yet.

ghost use Rattle.bw_log.specs.Views.{IsSound as IsSoundBeside};
ghost use Rattle.test_boxes.specs.Views.{IsSound};

use super::page::log_over;
use super::{Yard, add_box};
use bw_device::Segment;
use bw_log::{Log, LogFault};
use std::alloc::Global;
use test_boxes::{NEVER, is_added};

// Whether it has three spares, of which the last has lease 2, and nothing else.
fn is_empty(log: &Log) -> bool
    requires { IsSound log.now holding }
{
    log.live() == 0
        && log.spares() == 3
        && log.spare_leases(2) == Some(2)
        && log.live_segment(0).is_none()
        && log.oldest().is_none()
        && log.line(0).is_none()
        && log.pages() == 0
        && log.place_of(1).is_none()
        && log.base_of(1).is_none()
        && log.limit() == 65_536
        && log.next_frame() == Some(1)
        && !log.is_failed()
}

// Whether there is nothing to read.
fn reads_nothing(alloc: Global, log: &mut Log) -> bool
    requires { IsSound log.old holding }
    ensures { IsSound log.new holding }
{
    let mut out = Vec::new(alloc);
    let dumped = log.dump(1, &mut out);
    let page = log.read_page(1);
    dumped == Ok(false) && out.is_empty() && page.err() == Some(LogFault::NoPage)
}

// Whether it hands back the last box of a yard, which is that of lease 3.
fn is_refused(log: &mut Log, more: &mut Yard) -> bool
    requires { IsSoundBeside holding log.old }
    ensures { IsSoundBeside holding log.new }
{
    match more.boxes.pop() {
        Some(one) => match log.add_segment(one) {
            Err((refused, LogFault::BadConfig)) => refused.lease() == 3,
            _ => false,
        },
        None => false,
    }
}

// Whether a log of two spares, of leases 0 and 1, hands back a box that is a byte too small, takes
// one that is not, and hands them all out again.
fn spares_come_and_go(alloc: Global) -> Option<bool> {
    let (mut log, mut more) = log_over(alloc, 1, NEVER)?;
    if !add_box(&mut more, &[], 65_559, NEVER) {
        return None;
    }
    let come = is_refused(&mut log, &mut more) & is_added(&mut log, &mut more.boxes);
    log.roll();
    let told = is_empty(&log) & reads_nothing(alloc, &mut log);
    let (live, spares) = log.into_segments();
    Some(come && told && live.is_empty() && spares.len() == 3)
}

#[test]
fn spares_are_taken_and_handed_out_again(rt: HostRuntime) {
    assert!(rt; spares_come_and_go(rt.alloc()) == Some(true));
}
