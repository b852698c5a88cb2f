//! A cleaning of one segment, each page of which stands there in one Base that no later frame
//! touches, beside a copy of the segment's bytes.

ghost use Rattle.bw_care.specs.Views.{IsSound};

use crate::bench::Bench;
use crate::segments::memory;
use crate::stop::Stop;
use bw_care::{clean, recover};
use bw_codec::limits::{LATEST, MIN_FRAME};
use bw_codec::{Header, encode_frame_head, encode_header};
use bw_device::{Desk, Segment};
use bw_log::Log;
use std::alloc::{AllocError, Global};

/// Each frame has so many pages, about 15,000 bytes.
const IN_FRAME: u64 = 125;

const FRAMES: u64 = 64;

/// Room for the segment, or for what is written again, and more.
const CAPACITY: u64 = 2_097_152;

/// The least of so many rounds is printed.
const ROUNDS: u32 = 50;

/// A key of 8 bytes and a value of 16.
fn put_pair(out: &mut Vec<u8>, key: u64) -> Result<(), AllocError> {
    let mut pair = [b'v'; 27];
    pair[0] = 8;
    pair[1..9].copy_from_slice(&key.to_be_bytes());
    pair[9..11].copy_from_slice(&16u16.to_le_bytes());
    out.extend_from_slice(&pair)
}

/// What a Base of a page begins with: its number, and its low key, if it has one.
fn put_low(out: &mut Vec<u8>, page: u32, low: u64) -> Result<(), AllocError> {
    let [a, b, c, d] = page.to_le_bytes();
    if page == 1 {
        return out.extend_from_slice(&[2, a, b, c, d, 0]);
    }
    out.extend_from_slice(&[2, a, b, c, d, 8])?;
    out.extend_from_slice(&low.to_be_bytes())
}

/// A page of four pairs in a Base, its low key the first of them; that of page 1 has none.
fn put_base(out: &mut Vec<u8>, page: u32) -> Result<(), AllocError> {
    let first = u64::from(page).saturating_mul(4);
    put_low(out, page, first)?;
    out.extend_from_slice(&[4, 0])?;
    for key in first..first.saturating_add(4) {
        put_pair(out, key)?;
    }
    Ok(())
}

/// The pages of a frame, after those of the frames before it.
fn put_bases(out: &mut Vec<u8>, number: u64) -> Result<(), AllocError> {
    let behind = number.saturating_sub(1).saturating_mul(IN_FRAME);
    for i in 1..=IN_FRAME {
        put_base(out, u32::try_from(behind.saturating_add(i)).unwrap_or(0))?;
    }
    Ok(())
}

fn put_frame(alloc: Global, out: &mut Vec<u8>, number: u64) -> Result<(), AllocError> {
    let mut body = Vec::new(alloc);
    put_bases(&mut body, number)?;
    let length = u32::try_from(body.len()).unwrap_or(0);
    encode_frame_head(number, length, IN_FRAME as u32, out)?;
    out.extend_from_slice(&body)
}

fn put_header(out: &mut Vec<u8>, number: u64) -> Result<(), AllocError> {
    let header = Header {
        version: LATEST,
        number,
        m: 4,
        f: MIN_FRAME,
    };
    encode_header(&header, out)
}

/// The bytes of the segment that is cleaned.
fn put_oldest(alloc: Global, out: &mut Vec<u8>) -> Result<(), AllocError> {
    put_header(out, 1)?;
    for number in 1..=FRAMES {
        put_frame(alloc, out, number)?;
    }
    Ok(())
}

/// The nanoseconds of a cleaning that writes all pages again.
fn clean_all(bench: &Bench, log: &mut Log) -> Option<u64>
    requires { IsSound log.old holding }
{
    let start = bench.now();
    let Ok(cleaned) = clean(bench.alloc, log) else {
        return bench.stop(Stop::Refused, "a cleaning");
    };
    let nanos = bench.since(start);
    if cleaned.pages as u64 == FRAMES.saturating_mul(IN_FRAME) {
        return Some(nanos);
    }
    bench.stop(Stop::Refused, "a page that is not cleaned")
}

/// The nanoseconds of a cleaning of the log in these boxes, which writes all pages again.
fn clean_boxes(bench: &Bench, boxes: Vec<Box<dyn Segment>>) -> Option<u64> {
    match recover(bench.alloc, boxes) {
        Ok(mut found) => clean_all(bench, &mut found.log),
        Err(_) => bench.stop(Stop::Refused, "a recovery"),
    }
}

/// The nanoseconds of a cleaning of a log of these segments, which writes all pages again.
fn clean_pieces(bench: &Bench, desk: &mut Desk, pieces: &[&[u8]]) -> Option<u64> {
    let alloc = bench.alloc;
    let mut boxes: Vec<Box<dyn Segment>> = Vec::new(alloc);
    for piece in pieces {
        boxes.push(memory(alloc, desk, CAPACITY, piece)?).ok()?;
    }
    clean_boxes(bench, boxes)
}

/// The nanoseconds of a cleaning of this oldest segment, beside a newest one without a frame, and a
/// spare.
fn clean_once(bench: &Bench, bytes: &[u8]) -> Option<u64> {
    let mut newest = Vec::new(bench.alloc);
    put_header(&mut newest, 2).ok()?;
    let mut desk = Desk::new(bench.alloc, 3).ok()?;
    clean_pieces(bench, &mut desk, &[bytes, &newest, &[]])
}

fn copy_once(bench: &Bench, bytes: &[u8]) -> Option<u64> {
    let start = bench.now();
    let mut copy = Vec::new(bench.alloc);
    copy.extend_from_slice(bytes).ok()?;
    Some(bench.since(start))
}

/// Cleanings of the same segment, and copies of its bytes.
fn clean_often(bench: &Bench, bytes: &[u8]) -> Option<()> {
    let (mut cleaned, mut copied) = (u64::MAX, u64::MAX);
    for _ in 0..ROUNDS {
        cleaned = cleaned.min(clean_once(bench, bytes)?);
        copied = copied.min(copy_once(bench, bytes)?);
    }
    let pages = FRAMES.saturating_mul(IN_FRAME);
    bench.tell("cleaning, pages", pages, cleaned);
    bench.tell("cleaning, segments", 1, cleaned);
    bench.tell("a copy of the segment", 1, copied);
    bench.tell_each("  the segment", 1, bytes.len() as u64, "bytes");
    Some(())
}

/// Makes the segment, and cleans it.
pub fn cleaning(bench: &Bench) -> Option<()> {
    let mut bytes = Vec::new(bench.alloc);
    put_oldest(bench.alloc, &mut bytes).ok()?;
    clean_often(bench, &bytes)
}
