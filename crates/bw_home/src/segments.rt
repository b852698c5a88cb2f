//! A store goes on from segments in memory.

ghost use Rattle.std.specs.Prelude.{IfOk};

use crate::course::Course;
use crate::home::Home;
use crate::options::Options;
use bw_care::recover;
use bw_device::{Desk, MemSegment, Segment};
use bw_site::{HomeFault, Site, System};

// Goes on from what these boxes hold, runs the course over it, and ends the store.
fn go_on<R: System, C: Course<R>>(
    rt: &R,
    boxes: Vec<Box<dyn Segment>>,
    site: Site,
    options: &Options,
    course: C,
) -> Result<C::Answer, HomeFault>
    requires { Unit {0} }
    ensures answer { IfOk result (λ answer. C.says course answer) }
{
    let found = match recover(rt.alloc(), boxes) {
        Ok(found) => found,
        Err(fault) => return Err(HomeFault::from(fault.cause)),
    };
    let mut home = Home::reopen(rt, options, found, site)?;
    Ok(course.run(rt, &mut home))
}

/// Goes on from what these segments hold, whose leases are the desk's, runs the course over the
/// store, and ends it: its segments are dropped.
///
/// Refused `Recovery` if they hold no store, also if none of them has a byte; `Store`: `BadConfig`
/// if a number of the options is out of its range. A spare that the course makes has a lease of the
/// desk. Of the options the limits of pages and frames and the number of segments are not asked. It
/// takes the time of a recovery.
pub fn with_segments<R: System, C: Course<R>>(
    rt: &R,
    desk: Desk,
    segments: Vec<MemSegment>,
    options: &Options,
    course: C,
) -> Result<C::Answer, HomeFault>
    ensures answer { IfOk result (λ answer. C.says course answer) }
{
    // Boxes are made here only: a function that takes or gives a box, or a home, makes none.
    let mut boxes: Vec<Box<dyn Segment>> = Vec::new(rt.alloc());
    for segment in segments {
        boxes.push(Box::new(rt.alloc(), segment)?)?;
    }
    go_on(rt, boxes, Site::of(desk), options, course)
}
