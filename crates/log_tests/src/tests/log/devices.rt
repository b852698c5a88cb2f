// Segments, fuses and desks, in rows.

use super::{Yard, add_box, empty_yard};
use bw_device::{
    Desk, FuseSegment, Lease, MAX_CAPACITY, MAX_LEASES, MemSegment, NotMade, NotTaken, Segment,
};
use std::alloc::Global;
use test_boxes::NEVER;
use test_kit::tables::{Table, WrongStep, tables_go};

/// One case over a desk, with what it has to answer.
enum Row {
    /// After how many calls a fuse fails and how many bytes it then keeps, which of two appends and
    /// two reads pass, and the bytes that it holds after them.
    Fuse(u64, u64, [bool; 4], &'static str),
    /// Each call of a box of either kind succeeds, and both leases come back when they are dropped.
    Boxes,
    /// A segment of this capacity is not made of three bytes, and its lease comes back.
    NotMade(u64),
    /// How many leases, and why a desk of so many is not made.
    Desk(u32, Option<NotMade>),
    /// Three leases come back when they are dropped in this order, however they are collected.
    Order([u32; 3]),
    /// The least lease that is free is taken.
    Least,
    /// All leases of a greatest desk come back.
    All,
}

use Row::{All, Boxes, Fuse, Least, Order};

// Whether the append goes as expected: not if its condition does not hold.
fn appends(one: &mut dyn Segment, piece: &[u8], told: bool) -> bool {
    let room = one.capacity() - one.len();
    if room < piece.len() as u64 || one.failures() == u64::MAX {
        return false;
    }
    one.append(piece).is_ok() == told
}

// Whether the first bytes can be read or not, as expected, and are these: not if the condition does
// not hold.
fn reads(one: &mut dyn Segment, held: &[u8], told: bool) -> bool {
    let mut out = [0; 8];
    let n = held.len().min(8);
    if one.len() < n as u64 || one.failures() == u64::MAX {
        return false;
    }
    one.read(0, &mut out[..n]).is_ok() == told && (!told || &out[..n] == held)
}

// Whether a segment of 8 bytes has this lease, length and count of failures.
fn has(one: &dyn Segment, lease: u32, len: usize, failures: u64) -> bool {
    one.lease() == lease
        && one.capacity() == 8
        && one.len() == len as u64
        && one.failures() == failures
}

// Whether two appends and two reads of a segment go so, and leave these bytes.
fn passes_so(one: &mut dyn Segment, passes: &[bool; 4], held: &[u8]) -> bool {
    appends(one, b"abcd", passes[0])
        && appends(one, b"efgh", passes[1])
        && reads(one, held, passes[2])
        && reads(one, held, passes[3])
        && has(one, 0, held.len(), 1)
}

// A segment of 8 bytes with the lease 0 of a desk of its own.
fn one_segment(alloc: Global) -> Option<MemSegment> {
    match Desk::new(alloc, 1) {
        Ok(mut desk) => match desk.take() {
            Ok(lease) => MemSegment::new(alloc, lease, 8).ok(),
            Err(_) => None,
        },
        Err(_) => None,
    }
}

// Whether two appends and two reads of a segment that fails so go as expected, and leave these
// bytes.
fn burns(alloc: Global, fuse: (u64, u64), passes: &[bool; 4], held: &[u8]) -> bool {
    match one_segment(alloc) {
        Some(segment) => {
            let mut one = FuseSegment::new(segment, fuse.0, fuse.1);
            passes_so(&mut one, passes, held)
        }
        None => false,
    }
}

// Whether each call of the box of 8 bytes with this lease, with three bytes in it, succeeds, if it
// stands at its number.
fn succeeds(boxes: &mut [Box<dyn Segment>], lease: u32) -> bool {
    match boxes.get_mut(lease as usize) {
        Some(one) => has(&**one, lease, 3, 0)
            && appends(&mut **one, b"defgh", true)
            && reads(&mut **one, b"abcdefgh", true)
            && has(&**one, lease, 8, 0),
        None => false,
    }
}

// Whether each call of both boxes succeeds, and no lease comes back before they are dropped.
fn stay_out(yard: &mut Yard) -> bool {
    let boxes = yard.boxes.as_mut_slice();
    succeeds(boxes, 0) && succeeds(boxes, 1) && yard.desk.collect() == 0
}

// Whether each call of a box of either kind succeeds, and the leases come back only when the boxes
// are dropped.
fn both_succeed(alloc: Global) -> bool {
    let Some(mut full) = empty_yard(alloc, 2) else {
        return false;
    };
    if !add_box(&mut full, b"abc", 8, NEVER) || !add_box(&mut full, b"abc", 8, (9, 0)) {
        return false;
    }
    let stay = stay_out(&mut full);
    full.boxes = Vec::new(alloc);
    stay && full.desk.collect() == 2
}

// Whether no segment is made, for the capacity, and the first lease comes back.
fn is_refused(alloc: Global, desk: &mut Desk, capacity: u64) -> bool {
    let Ok(lease) = desk.take() else {
        return false;
    };
    let is_so = match MemSegment::with_bytes(alloc, lease, capacity, b"abc") {
        Ok(_) => false,
        Err(refused) => refused.cause == NotMade::BadConfig && refused.lease.number() == 0,
    };
    is_so && desk.collect() == 1
}

// Whether the next lease of a desk has this number, and comes in after the others.
fn is_taken(desk: &mut Desk, leases: &mut Vec<Option<Lease>>, number: u32) -> bool {
    match desk.take() {
        Ok(lease) => lease.number() == number && leases.push(Some(lease)).is_ok(),
        Err(_) => false,
    }
}

// So many leases of a desk, which are all, by their numbers; none if another one is taken.
fn leases_of(alloc: Global, desk: &mut Desk, many: u32) -> Option<Vec<Option<Lease>>> {
    let mut leases = Vec::new(alloc);
    for number in 0..many {
        if !is_taken(desk, &mut leases, number) {
            return None;
        }
    }
    if desk.take().err() == Some(NotTaken::NoLease) {
        Some(leases)
    } else {
        None
    }
}

// What is collected if these leases, which are all, are dropped in this order and collected where
// asked, as long as each is out until then.
fn collected_of(
    desk: &mut Desk,
    leases: &mut [Option<Lease>],
    order: &[u32; 3],
    collects: &[bool; 3],
) -> Option<[u32; 3]> {
    let mut told = [0; 3];
    for i in 0..3 {
        if let Some(lease) = leases.get_mut(order[i] as usize) {
            *lease = None;
        }
        if !desk.is_out(order[i]) {
            return None;
        }
        if collects[i] {
            told[i] = desk.collect();
        }
    }
    Some(told)
}

// What three leases of a desk give, which come back in this order.
fn collected(
    alloc: Global,
    desk: &mut Desk,
    order: &[u32; 3],
    collects: &[bool; 3],
) -> Option<[u32; 3]> {
    match leases_of(alloc, desk, 3) {
        Some(mut leases) => collected_of(desk, leases.as_mut_slice(), order, collects),
        None => None,
    }
}

// Where three dropped leases are collected, and how many each time.
const WAYS: &[([bool; 3], [u32; 3])] = &[
    ([false, false, true], [0, 0, 3]),
    ([false, true, true], [0, 2, 1]),
    ([true, false, true], [1, 0, 2]),
    ([true, true, true], [1, 1, 1]),
];

// Whether three leases come back when they are dropped in this order.
fn come_back(alloc: Global, desk: &mut Desk, order: &[u32; 3]) -> bool {
    for (collects, told) in WAYS {
        if collected(alloc, desk, order, collects) != Some(*told) {
            return false;
        }
    }
    true
}

// Whether leases 0 and 2 are taken, if lease 1 came back and is not collected yet.
fn least_is_taken(alloc: Global, desk: &mut Desk) -> bool {
    if collected(alloc, desk, &[2, 0, 1], &[false, true, false]) != Some([0, 2, 0]) {
        return false;
    }
    match (desk.take(), desk.take()) {
        (Ok(first), Ok(second)) => first.number() == 0 && second.number() == 2,
        _ => false,
    }
}

// Whether all leases are given out in order, come back when they are dropped, and are free from
// then on, the last one too.
fn all_come_back(alloc: Global, desk: &mut Desk) -> bool {
    let Some(leases) = leases_of(alloc, desk, MAX_LEASES) else {
        return false;
    };
    let held = desk.is_out(MAX_LEASES - 1) && desk.collect() == 0;
    drop(leases);
    held && desk.collect() == MAX_LEASES && !desk.is_out(MAX_LEASES - 1)
}

// Whether the row goes as expected.
fn goes(alloc: Global, desk: &mut Desk, row: &Row) -> bool {
    match row {
        Fuse(calls, keep, passes, held) => {
            burns(alloc, (*calls, *keep), passes, held.as_bytes())
        }
        Boxes => both_succeed(alloc),
        Row::NotMade(capacity) => is_refused(alloc, desk, *capacity),
        Row::Desk(many, told) => Desk::new(alloc, *many).err() == *told,
        Order(order) => come_back(alloc, desk, order),
        Least => least_is_taken(alloc, desk),
        All => all_come_back(alloc, desk),
    }
}

// Rows over a desk of so many leases.
struct OfLeases(u32, &'static [Row]);

// The first row that does not go as expected.
fn wrong_row(alloc: Global, desk: &mut Desk, rows: &[Row]) -> Option<usize> {
    for (i, row) in rows.iter().enumerate() {
        if !goes(alloc, desk, row) {
            return Some(i);
        }
    }
    None
}

impl Table for OfLeases {
    fn wrong_step(&self, alloc: Global) -> Option<usize> {
        match Desk::new(alloc, self.0) {
            Ok(mut desk) => wrong_row(alloc, &mut desk, self.1),
            Err(_) => Some(0),
        }
    }
}

const FUSES: &[Row] = &[
    Fuse(0, 0, [false, true, true, true], "efgh"),
    Fuse(0, 3, [false, true, true, true], "abcefgh"),
    Fuse(0, 4, [false, true, true, true], "abcdefgh"),
    Fuse(0, 9, [false, true, true, true], "abcdefgh"),
    Fuse(1, 0, [true, false, true, true], "abcd"),
    Fuse(1, 3, [true, false, true, true], "abcdefg"),
    Fuse(1, 4, [true, false, true, true], "abcdefgh"),
    Fuse(1, 9, [true, false, true, true], "abcdefgh"),
    Fuse(2, 0, [true, true, false, true], "abcdefgh"),
];

const NOT_MADE: &[Row] = &[
    Row::NotMade(0),
    Row::NotMade(2),
    Row::NotMade(MAX_CAPACITY + 1),
];

// A desk has one to 4096 leases.
const DESKS: &[Row] = &[
    Row::Desk(0, Some(NotMade::BadConfig)),
    Row::Desk(1, None),
    Row::Desk(MAX_LEASES, None),
    Row::Desk(MAX_LEASES + 1, Some(NotMade::BadConfig)),
];

const ORDERS: &[Row] = &[
    Order([0, 1, 2]),
    Order([0, 2, 1]),
    Order([1, 0, 2]),
    Order([1, 2, 0]),
    Order([2, 0, 1]),
    Order([2, 1, 0]),
];

const TABLES: &[OfLeases] = &[
    OfLeases(1, FUSES),
    OfLeases(1, &[Boxes]),
    OfLeases(1, NOT_MADE),
    OfLeases(1, DESKS),
    OfLeases(3, ORDERS),
    OfLeases(3, &[Least]),
    OfLeases(MAX_LEASES, &[All]),
];

#[test]
fn segments_fuses_and_desks_go_as_told(rt: HostRuntime) -> Result<(), WrongStep> {
    tables_go(rt.alloc(), TABLES)
}
