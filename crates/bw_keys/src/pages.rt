//! The pages of a folder that is only looked at, as recovery finds them.

ghost use Rattle.std.specs.Prelude.{◌≡◌, None, IfOk, IfSome};
ghost use Rattle.bw_page.specs.Ahead.{IsNextLow};
ghost use Rattle.bw_page.specs.Leaves.{union};
ghost use Rattle.bw_keys.specs.Stretches.{stretch, stretch_on, HasNoneWanted};
ghost use Rattle.bw_keys.specs.Asked.{count_in};

use crate::fault::KeysFault;
use crate::span::Span;
use bw_beside::{Ask, Asked};
use bw_care::recover;
use bw_codec::limits::{HEADER_LEN, MAX_FRAME};
use bw_codec::{Key, Leaf};
use bw_device::{Desk, MemSegment, Segment};
use bw_file::{FolderFault, FolderReader};
use bw_home::{HomeFault, System};
use bw_look::{Watch, Work, folder_bytes};
use bw_page::Leaves;
use bw_site::{beginning_of, copy_of};
use std::alloc::Global;
use std::io::ErrorKind;

/// The least capacity of a copy, in bytes: a header and the longest frame.
const LEAST: u64 = HEADER_LEN as u64 + MAX_FRAME as u64;

/// The leases of the files of a folder that is open for reading, one at least.
fn files_of<R: System>(rt: &R, reader: &FolderReader) -> Result<Vec<u32>, KeysFault> {
    match reader.leases(rt) {
        Ok(leases) if leases.is_empty() => Err(KeysFault::NoStore),
        Ok(leases) => Ok(leases),
        Err(fault) => Err(KeysFault::from(HomeFault::from(fault))),
    }
}

/// Refuses a folder that is not there, or has no store, or that somebody writes.
pub fn check_store<R: System>(rt: &R, path: &str) -> Result<(), KeysFault> {
    match FolderReader::open(rt, path) {
        Ok(reader) => {
            let _ = files_of(rt, &reader)?;
            Ok(())
        }
        Err(fault) => Err(KeysFault::from(HomeFault::from(fault))),
    }
}

/// Copies of all segments of a folder, by a desk of so many leases. Each is the one of its lease,
/// so what is said of one names it. The files have so many bytes.
fn copies_of<R: System, W: Watch>(
    rt: &R,
    reader: &FolderReader,
    files: &[u32],
    leases: u32,
    all: u64,
    watch: &mut W,
) -> Result<Vec<MemSegment>, HomeFault> {
    let count = files.last().map_or(0, |last| last.saturating_add(1));
    let mut desk = Desk::new(rt.alloc(), leases)?;
    let mut copies = Vec::new(rt.alloc());
    let mut done = 0u64;
    for _ in 0..count {
        let copy = copy_of(rt, reader, &mut desk, files, LEAST)?;
        done = done.saturating_add(copy.len());
        copies.push(copy)?;
        watch.see(Work::Reading, done, all);
    }
    Ok(copies)
}

/// Asks the pages in these boxes; `None` if nothing was ever durable in them: whoever writes there
/// begins anew.
fn ask_boxes<W, A: Ask<W>>(
    alloc: Global,
    boxes: Vec<Box<dyn Segment>>,
    ask: &mut A,
    watch: &mut W,
) -> Result<Option<A::Answer>, HomeFault>
    requires { Unit {0} }
{
    match recover(alloc, boxes) {
        Ok(pages) => Ok(Some(ask.ask(pages, watch))),
        Err(fault) => {
            let _ = beginning_of(fault)?;
            Ok(None)
        }
    }
}

/// Asks the pages in copies of segments. Their boxes are made only here.
fn ask_copies<W, A: Ask<W>>(
    alloc: Global,
    copies: Vec<MemSegment>,
    ask: &mut A,
    watch: &mut W,
) -> Result<Option<A::Answer>, HomeFault> {
    if copies.iter().all(|copy| copy.len() == 0) {
        return Ok(None);
    }
    let mut boxes: Vec<Box<dyn Segment>> = Vec::new(alloc);
    for copy in copies {
        boxes.push(Box::new(alloc, copy)?)?;
    }
    ask_boxes(alloc, boxes, ask, watch)
}

/// Asks the pages of a folder in which nobody writes.
fn ask_alone<R: System, W: Watch, A: Ask<W>>(
    rt: &R,
    path: &str,
    reader: &FolderReader,
    leases: u32,
    ask: &mut A,
    watch: &mut W,
) -> Result<Option<A::Answer>, KeysFault> {
    let files = files_of(rt, reader)?;
    let all = folder_bytes(rt, path, leases, watch);
    let copies = copies_of(rt, reader, files.as_slice(), leases, all, watch)?;
    watch.see(Work::Recovering, 0, all);
    Ok(ask_copies(rt.alloc(), copies, ask, watch)?)
}

/// Asks the pages of the store in a folder, which has to be there, and stays as it is; `None` if
/// nothing was ever durable there. Other readers are no hindrance. If somebody writes it, they are
/// those of one of its frames, as `bw_beside::open` has it.
///
/// What recovery refuses is refused, a file above so many leases, and a folder without the file of
/// any segment. It takes memory for a copy of all files, and the time of a recovery and of what is
/// asked; of up to ten recoveries if somebody writes.
pub(crate) fn ask_in<R: System, W: Watch, A: Ask<W>>(
    rt: &R,
    path: &str,
    leases: u32,
    ask: &mut A,
    watch: &mut W,
) -> Result<Option<A::Answer>, KeysFault> {
    match bw_beside::ask(rt, path, ask, watch) {
        Ok(Asked::Alone(reader)) => ask_alone(rt, path, &reader, leases, ask, watch),
        Ok(Asked::Beside(answer)) => Ok(Some(answer)),
        Err(fault) => Err(KeysFault::from(HomeFault::from(fault))),
    }
}

/// Whether a folder was not opened since it is missing, or has no store.
fn is_missing(fault: &KeysFault) -> bool {
    match fault {
        KeysFault::NoStore => true,
        KeysFault::Home(HomeFault::Folder(FolderFault::System(error))) => {
            error.kind() == ErrorKind::NotFound
        }
        _ => false,
    }
}

/// Asks the pages of the store in a folder; `None` if nothing was ever durable there, and also if
/// it is missing, or has no store. It is refused as `ask_in` is.
pub(crate) fn ask_if_there<R: System, W: Watch, A: Ask<W>>(
    rt: &R,
    path: &str,
    leases: u32,
    ask: &mut A,
    watch: &mut W,
) -> Result<Option<A::Answer>, KeysFault> {
    match ask_in(rt, path, leases, ask, watch) {
        Ok(answer) => Ok(answer),
        Err(fault) if is_missing(&fault) => Ok(None),
        Err(fault) => Err(fault),
    }
}

/// The low of the page after that of a key, if it may have wanted keys.
fn next_low(leaves: &Leaves, span: &Span, key: &Key) -> Option<Key>
    ensures some { IfSome result (λ low. IsNextLow leaves.now.leaves key.now low) }
    ensures none { result ≡ None → HasNoneWanted span.now leaves.now.leaves key.now }
{
    let low = leaves.low_above(key)?;
    if span.is_over(low.as_slice()) {
        return None;
    }
    Some(low)
}

/// The numbers of the pages that may have wanted keys, in the order of their keys.
pub(crate) fn pages_over(alloc: Global, leaves: &Leaves, span: &Span) -> Result<Vec<u32>, KeysFault>
    ensures { IfOk result (λ numbers. stretch_on span.now leaves.now.leaves numbers.items
        ≡ stretch span.now (union leaves.now.leaves)) }
{
    let mut pages = Vec::new(alloc);
    let mut key = span.start_key();
    pages.push(leaves.find(&key))?;
    for _ in 0..leaves.count() {
        let Some(low) = next_low(leaves, span, &key) else {
            return Ok(pages);
        };
        key = low;
        pages.push(leaves.find(&key))?;
    }
    Ok(pages)
}

/// How many keys of a page are wanted.
pub fn count_in(leaf: &Leaf, span: &Span) -> u64
    ensures { result ≡ count_in span.now leaf.now }
{
    let pairs = leaf.pairs.as_slice();
    pairs.iter().filter(|pair| span.has(pair.key())).count() as u64
}
