//! Segments in the order of their numbers, and whether they follow one another.
//!
//! Boxes come in any order: a file is named by its lease, and leases are used again. Headers that
//! do not fit each other are reported first, since numbers of two logs say nothing of one another.
//! A segment that is missing would take pages with it and leave no trace, so a gap is a fault. The
//! numbers of frames are asked too: a segment that was shortened between two frames has no tail,
//! and only the next frame's number shows it.

ghost use Rattle.std.specs.Prelude.{◌≡◌, ◌≤◌, ◌==◌, ◌+◌, ◌++◌, ◌&&◌, Some, None, false, IfErr, IfOk, OnOk, map, length};
ghost use Rattle.std.specs.List.{list_any, AllByRecursion};
ghost use Rattle.bw_care.specs.Recovery.{placed_by, clash, are_mixed, pairs_of, limit_of};
ghost use Rattle.bw_care.specs.Parting.{place_among};
ghost use Rattle.bw_care.specs.Surveying.{HasShortTail};
ghost use Rattle.bw_care.specs.Ordering.{headers_of, is_clean, is_narrow, any_narrow, follow_from, may_follow, number_found, sorted, moved_to, lines_found, line_number, IsOrder, CauseIs, order_fault, oldest_number, is_clean_from};

use crate::boxes::tail_of;
use crate::scan::{Behind, Scan};
use bw_codec::Header;
use bw_codec::limits::{HEADER_LEN, LATEST, MIN_FRAME};
use bw_lines::RecoverCause;
use bw_log::FrameAt;
use std::alloc::{AllocError, Global};

/// What was read of a segment.
#[derive(Drop)]
pub struct Found {
    /// The position of its box among those handed in.
    pub index: usize,
    pub header: Header,
    pub behind: Behind,
}

/// The headers of the segments, in the order of their boxes.
pub fn headers_of(alloc: Global, scans: &[Scan]) -> Result<Vec<Header>, AllocError>
    ensures { IfOk result (λ headers. headers.items ≡ headers_of scans.now) }
{
    let mut headers = Vec::new(alloc);
    for scan in scans {
        match scan {
            Scan::Live(header, _) => headers.push(*header)?,
            Scan::Bare => {}
            Scan::Part => {}
        }
    }
    Ok(headers)
}

// Whether two headers stand in no log together.
fn clash(a: &Header, b: &Header) -> bool
    ensures { result ≡ clash a.now b.now }
{
    a.m != b.m
        || (a.version == b.version && a.f != b.f)
        || (a.version == 2 && b.version == 1 && a.number < b.number)
}

fn clashes(a: &Header, headers: &[Header]) -> bool
    ensures { result ≡ list_any (clash a.now) headers.now }
{
    headers.iter().any(|b| clash(a, b))
}

/// Whether some two headers stand in no log together.
pub fn are_mixed(headers: &[Header]) -> bool
    ensures { result ≡ are_mixed headers.now }
{
    headers.iter().any(|a| clashes(a, headers))
}

/// The most pairs of a page, by the first header.
pub fn pairs_of(headers: &[Header]) -> u16
    ensures { result ≡ pairs_of headers.now }
{
    match headers.first() {
        Some(header) => header.m,
        None => 0,
    }
}

/// The most bytes of a frame that is written, by the first header of version 2.
pub fn limit_of(headers: &[Header]) -> u32
    ensures { result ≡ limit_of headers.now }
{
    for header in headers {
        if header.version == LATEST {
            return header.f;
        }
    }
    MIN_FRAME
}

fn is_too_narrow(least: u64, scan: &Scan, room: u64) -> bool
    ensures { result ≡ is_narrow least scan.now room }
{
    match scan {
        Scan::Bare => room < least,
        Scan::Part => false,
        Scan::Live(_, _) => false,
    }
}

/// Whether an empty box has too little room.
pub fn some_narrow(least: u64, scans: &[Scan], rooms: &[u64]) -> bool
    requires { length rooms.now ≡ length scans.now }
    ensures { result ≡ any_narrow least scans.now rooms.now }
{
    let mut at = 0;
    'scans: while at < scans.len() {
        if is_too_narrow(least, &scans[at], rooms[at]) {
            return true;
        }
        at += 1;
    }
    false
}

fn goes_on(last: Option<u64>, number: u64) -> bool
    ensures { result ≡ may_follow last number }
{
    match last {
        Some(last) => last < number && number - 1 == last,
        None => true,
    }
}

/// Whether the numbers of frames have no gap.
pub fn frames_follow(lines: &[FrameAt]) -> bool
    ensures { result ≡ follow_from None (map line_number lines.now) }
{
    let mut last = None;
    let mut at = 0;
    'frames: while at < lines.len() {
        let number = lines[at].number;
        if !goes_on(last, number) {
            return false;
        }
        last = Some(number);
        at += 1;
    }
    true
}

/// Whether the numbers of segments have no gap.
pub fn segments_follow(live: &[Found]) -> bool
    ensures { result ≡ follow_from None (map number_found live.now) }
{
    let mut last = None;
    let mut at = 0;
    'live: while at < live.len() {
        let number = live[at].header.number;
        if !goes_on(last, number) {
            return false;
        }
        last = Some(number);
        at += 1;
    }
    true
}

// Where a number stands in order.
fn place_in(live: &[Found], number: u64) -> usize
    ensures place { result ≡ place_among number (map number_found live.now) }
    ensures within { result ≤ length live.now }
{
    for (at, one) in live.iter().enumerate() {
        if number < one.header.number {
            return at;
        }
    }
    live.len()
}

// One more segment goes to its place.
fn put_in(live: &mut Vec<Found>, found: Found) -> Result<(), AllocError>
    ensures { OnOk result (live.new.items ≡ placed_by number_found found live.old.items) }
{
    let at = place_in(live, found.header.number);
    live.insert(at, found)?;
    Ok(())
}

/// Segments in the order of their numbers.
pub fn in_number_order(alloc: Global, scans: Vec<Scan>) -> Result<Vec<Found>, AllocError>
    ensures { IfOk result (λ live. live.items ≡ sorted scans.items) }
{
    let mut scans = scans;
    let mut live = Vec::new(alloc);
    let mut index = 0;
    scans.reverse();
    'next: while let Some(scan) = scans.pop() {
        match scan {
            Scan::Live(header, behind) => put_in(
                &mut live,
                Found {
                    index,
                    header,
                    behind,
                },
            )?,
            Scan::Bare => {}
            Scan::Part => {}
        }
        index += 1;
    }
    Ok(live)
}

/// Where the frames of all segments stand, and their boxes.
#[derive(Drop)]
pub struct Gathered {
    /// Each with its segment's position among the live ones.
    pub lines: Vec<FrameAt>,
    /// The position of each segment's box among those handed in.
    pub boxes: Vec<usize>,
    /// The version of each segment.
    pub versions: Vec<u16>,
}

// The lines of the segment at a position.
fn add_lines(lines: &mut Vec<FrameAt>, more: Vec<FrameAt>, segment: u64) -> Result<(), AllocError>
    ensures { OnOk result (lines.new.items ≡ lines.old.items ++ map (moved_to segment) more.items) }
{
    let mut more = more;
    more.reverse();
    'more: while let Some(line) = more.pop() {
        let mut line = line;
        line.segment = segment;
        lines.push(line)?;
    }
    Ok(())
}

/// Where all frames stand, and the segments' boxes and versions.
pub fn gather(alloc: Global, live: Vec<Found>) -> Result<Gathered, AllocError>
    ensures boxes { IfOk result (λ g. g.boxes.items ≡ map (λ r. r.index) live.items) }
    ensures lines { IfOk result (λ g. g.lines.items ≡ lines_found 0 live.items) }
    ensures versions { IfOk result (λ g.
        g.versions.items ≡ map (λ r. r.header.version) live.items) }
{
    let mut live = live;
    let mut boxes = Vec::new(alloc);
    let mut versions = Vec::new(alloc);
    let mut lines = Vec::new(alloc);
    let mut segment: u64 = 0;
    live.reverse();
    'next: while let Some(found) = live.pop() {
        let Found {
            index,
            header,
            behind,
        } = found;
        add_lines(&mut lines, behind.into_lines(), segment)?;
        boxes.push(index)?;
        versions.push(header.version)?;
        segment += 1;
    }
    Ok(Gathered {
        lines,
        boxes,
        versions,
    })
}

/// What stands in segments whose order is right.
#[derive(Drop)]
pub struct Order {
    /// The most pairs of a page.
    pub m: u16,
    /// The most bytes of a frame that is written.
    pub f: u32,
    /// The oldest segment's number.
    pub number: u64,
    /// The version of each live segment.
    pub versions: Vec<u16>,
    /// Whether the newest segment has version 2 and no tail.
    pub is_open: bool,
    /// How many bytes all tails have.
    pub tail: u64,
    /// Where the frames stand, each with its segment's position among the live ones.
    pub lines: Vec<FrameAt>,
    /// The position of each live segment's box among those handed in.
    pub boxes: Vec<usize>,
}

// The number of the oldest segment.
fn oldest(live: &[Found]) -> u64
    ensures { result ≡ oldest_number live.now }
{
    match live.first() {
        Some(found) => found.header.number,
        None => 0,
    }
}

// Whether a segment has version 2 and no tail.
fn is_clean(found: &Found) -> bool
    ensures { result ≡ is_clean found.now }
{
    found.header.version == LATEST && found.behind.tail == 0
}

// Whether the newest segment does.
fn ends_clean(live: &[Found]) -> bool
    ensures { result ≡ is_clean_from false live.now }
{
    let mut clean = false;
    let mut at = 0;
    'live: while at < live.len() {
        clean = is_clean(&live[at]);
        at += 1;
    }
    clean
}

fn is_gapless(live: bool, lines: &[FrameAt]) -> bool
    ensures { result ≡ (live && follow_from None (map line_number lines.now)) }
{
    live && frames_follow(lines)
}

/// What stands in all segments, or the first fault of their order.
pub fn order_of(alloc: Global, scans: Vec<Scan>, rooms: &[u64]) -> Result<Order, RecoverCause>
    requires rooms { length rooms.now ≡ length scans.items }
    requires few { length scans.items ≤ 4096 }
    requires short { AllByRecursion HasShortTail scans.items }
    ensures right { IfOk result (IsOrder scans.items rooms.now) }
    ensures fault { IfErr result (CauseIs (order_fault scans.items rooms.now)) }
{
    let headers = headers_of(alloc, &scans)?;
    if are_mixed(&headers) {
        return Err(RecoverCause::Mixed);
    }
    let m = pairs_of(&headers);
    let f = limit_of(&headers);
    let narrow = some_narrow(HEADER_LEN as u64 + u64::from(f), &scans, rooms);
    let live = in_number_order(alloc, scans)?;
    let follows = segments_follow(&live);
    let number = oldest(&live);
    let is_open = ends_clean(&live);
    let tail = tail_of(&live);
    let Gathered {
        lines,
        boxes,
        versions,
    } = gather(alloc, live)?;
    if !is_gapless(follows, &lines) {
        return Err(RecoverCause::Gap);
    }
    if lines.is_empty() {
        return Err(RecoverCause::Empty);
    }
    if narrow {
        return Err(RecoverCause::BadConfig);
    }
    Ok(Order {
        m,
        f,
        number,
        versions,
        is_open,
        tail,
        lines,
        boxes,
    })
}
