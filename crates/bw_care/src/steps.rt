//! Recovery's steps, one after the other, before any box is moved.
//!
//! Frames are found in a first pass over each box, and their blocks are read in a second one, once
//! the order of all segments is known. The second pass makes no record: it looks at blocks where
//! they lie. Only what the first pass found to be lawful is read again.

ghost use Rattle.std.specs.Prelude.{◌≡◌, ◌≤◌, ◌<◌, nat_lt, true, [], IfOk, IfErr, IfSome, IfNone, OnOk, map, length, slice_get};
ghost use Rattle.std.specs.Vec.{vec_capacity};
ghost use Rattle.bw_care.specs.Planned.{HasRoom, AreRooms, RoomsStop, IsSurvey, AreFindings, first_line, last_line};
ghost use Rattle.bw_care.specs.Found.{Refuses};

use crate::boxes::{Kind, Numbered, kinds_of, parts_of};
use crate::finding::read_forward;
use crate::order::{Order, order_of};
use crate::scan::scan_all;
use bw_device::{MAX_CAPACITY, Segment, capacity_of, len_of};
use bw_found::pages_of;
use bw_lines::{Pages, RecoverCause};
use bw_log::{FrameAt, Tables};
use bw_page::Leaves;
use std::alloc::Global;

/// How many boxes a log has at most.
const MAX_BOXES: usize = 4096;

/// What is known of boxes once the order of their segments is right.
#[derive(Drop)]
pub struct Survey {
    /// What each box is.
    pub kinds: Vec<Kind>,
    /// How many boxes hold a part of a header.
    pub dropped: u32,
    pub order: Order,
}

/// What was found, before boxes are moved.
#[derive(Drop)]
pub struct Findings {
    pub kinds: Vec<Kind>,
    pub tables: Tables,
    pub leaves: Leaves,
    /// How many pairs the pages have.
    pub pairs: u64,
    pub first: u64,
    pub last: u64,
    pub tail: u64,
    pub dropped: u32,
}

// The room of the box at a position, if a log may have it.
fn room_of(boxes: &[Box<dyn Segment>], at: usize) -> Option<u64>
    requires { at < length boxes.now }
    ensures some { IfSome result (λ room.
        IfSome (slice_get (map holding boxes.now) at) (HasRoom room)) }
    ensures none { IfNone result
        (IfSome (slice_get (map holding boxes.now) at) (λ h. nat_lt 1073741824 h.room ≡ true)) }
{
    // The length shows the proof that no box holds more than it has room for.
    let _ = len_of(boxes, at);
    let room = capacity_of(boxes, at);
    if room > MAX_CAPACITY {
        None
    } else {
        Some(room)
    }
}

// The rooms of all boxes, in order, if a log may have them all.
fn rooms_of(alloc: Global, boxes: &[Box<dyn Segment>]) -> Result<Vec<u64>, RecoverCause>
    requires { Unit {0} }
    ensures rooms { IfOk result (λ rooms. AreRooms (map holding boxes.now) rooms.items
        × (length rooms.items ≡ length boxes.now) × (length boxes.now ≤ 4096)) }
    ensures stops { IfErr result (RoomsStop (map holding boxes.now)) }
{
    if boxes.len() > MAX_BOXES {
        return Err(RecoverCause::BadConfig);
    }
    let mut rooms = Vec::new(alloc);
    for at in 0..boxes.len() {
        match room_of(boxes, at) {
            Some(room) => rooms.push(room)?,
            None => return Err(RecoverCause::BadConfig),
        }
    }
    Ok(rooms)
}

// What each box is, and what stands in the segments, if their order is right.
fn look_over(alloc: Global, boxes: &mut Vec<Box<dyn Segment>>) -> Result<Survey, RecoverCause>
    requires { Unit {0} }
    ensures found { IfOk result (IsSurvey (map holding boxes.old.items)) }
    ensures same { OnOk result (map holding boxes.new.items ≡ map holding boxes.old.items) }
    ensures refuses { IfErr result (λ cause.
        Refuses (map holding boxes.old.items) cause (map holding boxes.new.items)) }
{
    let rooms = rooms_of(alloc, boxes)?;
    let scans = scan_all(alloc, boxes)?;
    let kinds = kinds_of(alloc, &scans)?;
    let dropped = parts_of(&scans);
    let order = order_of(alloc, scans, &rooms)?;
    Ok(Survey {
        kinds,
        dropped,
        order,
    })
}

// The first line's number, or 0.
fn first_of(lines: &[FrameAt]) -> u64
    ensures { result ≡ first_line lines.now }
{
    match lines.first() {
        Some(line) => line.number,
        None => 0,
    }
}

// The last line's number, or 0.
fn last_of(lines: &[FrameAt]) -> u64
    ensures { result ≡ last_line 0 lines.now }
{
    let mut last = 0;
    let mut at = 0;
    'lines: while at < lines.len() {
        last = lines[at].number;
        at += 1;
    }
    last
}

// What the frames say, once the order is right: no box is moved.
fn findings_of(
    alloc: Global,
    boxes: &mut Vec<Box<dyn Segment>>,
    survey: Survey,
) -> Result<Findings, RecoverCause>
    requires { IsSurvey (map holding boxes.old.items) survey }
    ensures findings { IfOk result (AreFindings (map holding boxes.old.items)) }
    ensures same { OnOk result (map holding boxes.new.items ≡ map holding boxes.old.items) }
    ensures refuses { IfErr result (λ cause.
        Refuses (map holding boxes.old.items) cause (map holding boxes.new.items)) }
{
    let Survey {
        kinds,
        dropped,
        order,
    } = survey;
    let Order {
        m,
        f,
        number,
        versions,
        is_open,
        tail,
        lines: frames,
        boxes: places,
    } = order;
    let first = first_of(&frames);
    let last = last_of(&frames);
    let lines = read_forward(alloc, boxes, &places, first)?;
    let Pages {
        leaves,
        table,
        pairs,
    } = pages_of(alloc, m, lines)?;
    let tables = Tables {
        m,
        f,
        number,
        versions,
        is_open,
        frames,
        pages: table,
    };
    Ok(Findings {
        kinds,
        tables,
        leaves,
        pairs,
        first,
        last,
        tail,
        dropped,
    })
}

/// Goes through all boxes, and moves none. It goes twice through each box with bytes: once to find
/// the frames, once to read their blocks in the order of their numbers.
pub fn prepare(alloc: Global, boxes: &mut Vec<Box<dyn Segment>>) -> Result<Findings, RecoverCause>
    requires { Unit {0} }
    ensures findings { IfOk result (AreFindings (map holding boxes.old.items)) }
    ensures same { OnOk result (map holding boxes.new.items ≡ map holding boxes.old.items) }
    ensures refuses { IfErr result (λ cause.
        Refuses (map holding boxes.old.items) cause (map holding boxes.new.items)) }
{
    let survey = look_over(alloc, boxes)?;
    findings_of(alloc, boxes, survey)
}

/// Places for as many boxes of either kind. A refused growth is the only error.
pub fn places(
    alloc: Global,
    count: usize,
) -> Result<(Vec<Numbered>, Vec<Box<dyn Segment>>, Vec<Box<dyn Segment>>), RecoverCause>
    requires { Unit {0} }
    ensures numbered { IfOk result (λ p. (p.0.items ≡ []) × (count ≤ vec_capacity p.0)) }
    ensures live { IfOk result (λ p. (p.1.items ≡ []) × (count ≤ vec_capacity p.1)) }
    ensures spares { IfOk result (λ p. (p.2.items ≡ []) × (count ≤ vec_capacity p.2)) }
    ensures memory { IfErr result (λ cause. cause ≡ RecoverCause.NoMemory) }
{
    let numbered = Vec::with_capacity(alloc, count)?;
    let live = Vec::with_capacity(alloc, count)?;
    let spares = Vec::with_capacity(alloc, count)?;
    Ok((numbered, live, spares))
}

/// The boxes without their numbers. No memory is taken.
pub fn boxes_of(numbered: Vec<Numbered>, live: Vec<Box<dyn Segment>>) -> Vec<Box<dyn Segment>>
    requires none { live.items ≡ [] }
    requires room { length numbered.items ≤ vec_capacity live }
    ensures { map holding result.items ≡ map (λ n. holding n.segment) numbered.items }
{
    let mut numbered = numbered;
    let mut live = live;
    numbered.reverse();
    'boxes: while let Some(one) = numbered.pop() {
        let Numbered { number: _, segment } = one;
        live.push_reserved(segment);
    }
    live
}
