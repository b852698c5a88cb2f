//! A cleaning whose pages need more frames than one.

use super::boxes::{Yard, add_box, all_out, empty_yard};
use super::steps::{cleaned, cleans};
use bw_care::recover;
use bw_codec::limits::{LATEST, MIN_FRAME};
use bw_codec::{Header, encode_frame_head, encode_header};
use bw_device::Segment;
use std::alloc::Global;
use test_boxes::NEVER;

// The bytes of each part.
fn put(out: &mut Vec<u8>, parts: &[&[u8]]) -> Option<()> {
    for part in parts {
        out.extend_from_slice(part).ok()?;
    }
    Some(())
}

// A key of 128 bytes: two more name the page and the pair.
const KEY: &[u8] = &[b'k'; 126];

const VALUE: &[u8] = &[b'v'; 512];

// Room for two frames of twenty such pages each.
const ROOM: u64 = 131_072;

// A page in a Base of 2,708 bytes, its low key the first of its pairs; that of page 1 has none. Its
// four pairs, with values of 512 bytes, are 2,572 of these.
fn put_base(out: &mut Vec<u8>, page: u8) -> Option<()> {
    if page == 1 {
        put(out, &[&[2, 1, 0, 0, 0, 0, 4, 0]])?;
    } else {
        put(out, &[&[2, page, 0, 0, 0, 128], KEY, &[page, 0, 4, 0]])?;
    }
    for pair in 0..4 {
        put(out, &[&[128], KEY, &[page, pair, 0, 2], VALUE])?;
    }
    Some(())
}

// A frame of twenty such pages, from the page after this one on, with so many bytes of blocks.
fn put_frame(out: &mut Vec<u8>, number: u64, behind: u8, body: u32) -> Option<()> {
    encode_frame_head(number, body, 20, out).ok()?;
    for page in 1..41 {
        if behind < page && page - behind <= 20 {
            put_base(out, page)?;
        }
    }
    Some(())
}

// The bytes of the segment of this number: in the first stand forty full pages in two frames, the
// second is begun after it.
fn put_segment(out: &mut Vec<u8>, number: u64) -> Option<()> {
    let header = Header {
        version: LATEST,
        number,
        m: 4,
        f: MIN_FRAME,
    };
    encode_header(&header, out).ok()?;
    if number == 1 {
        put_frame(out, 1, 0, 54_032)?;
        put_frame(out, 2, 20, 54_160)?;
    }
    Some(())
}

fn add_segment(yard: &mut Yard, number: u64) -> bool {
    let mut out = Vec::new(yard.alloc);
    put_segment(&mut out, number).is_some() && add_box(yard, &out, ROOM, NEVER)
}

// Whether both segments and a spare stand there.
fn add_segments(yard: &mut Yard) -> bool {
    add_segment(yard, 1) && add_segment(yard, 2) && add_box(yard, &[], ROOM, NEVER)
}

// Whether forty pages are recovered again, only from the cleaner's frames.
fn are_there(alloc: Global, live: Vec<Box<dyn Segment>>) -> bool {
    match recover(alloc, live) {
        Ok(again) => again.leaves.count() == 40 && again.first == 3 && again.last == 4,
        Err(_) => false,
    }
}

// Whether the log that is recovered is cleaned, and all pages are there then.
fn is_cleaned(alloc: Global, boxes: Vec<Box<dyn Segment>>) -> bool {
    match recover(alloc, boxes) {
        Ok(found) => {
            let mut log = found.log;
            let goes = cleans(alloc, &mut log, Ok(cleaned(1, 0, 40, 2)));
            goes && are_there(alloc, log.into_segments().0)
        }
        Err(_) => false,
    }
}

// Whether a log of forty full pages is recovered and cleaned, and all of them are there then.
fn are_cleaned(alloc: Global) -> bool {
    match empty_yard(alloc, 8) {
        Some(mut yard) => add_segments(&mut yard) && is_cleaned(alloc, all_out(&mut yard)),
        None => false,
    }
}

#[test]
fn forty_full_pages_are_cleaned_into_two_frames(rt: HostRuntime) {
    assert!(rt; are_cleaned(rt.alloc()));
}
