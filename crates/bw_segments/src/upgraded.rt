//! `bwlog upgrade`: the pages of segments of format 1 are written again in format 2, and these
//! segments are given up. They are lines in hex, or the files of a folder.

ghost use Rattle.bw_home.specs.Ready.{IsReady};

use crate::images::{copies_of, copy_of, images};
use bw_core::{StoreFault, Upgraded};
use bw_device::{Desk, MAX_LEASES, MemSegment};
use bw_home::{Course, Home, HomeFault, Options, with_segments};
use bw_look::{Image, Printer, Unseen, Watch, Work, folder_bytes, write_page};
use bw_words::{LEASES, Met, Miss, Stop, System, leases_in, missed, write_dump};
use std::alloc::Global;
use std::io::{Read, Write};

/// How many spares stand after the segments that are lines.
const SPARES: usize = 4;

fn write_upgraded<O: Write>(out: &mut Printer<'_, O>, upgraded: &Upgraded) {
    out.named("upgraded segments ", upgraded.segments);
    out.named(" pages ", upgraded.pages);
    out.line(" frames ", upgraded.frames);
}

// ---- lines

/// Prints the bytes of the live segment at an index, if there is one.
fn dump_segment<O: Write>(
    alloc: Global,
    home: &mut Home,
    index: u32,
    output: &mut O,
) -> Result<(), Miss>
    requires { IsReady home.old holding }
    ensures { IsReady home.new holding }
{
    let Some((number, _, _)) = home.store.live_segment(index) else {
        return Ok(());
    };
    let mut bytes = Vec::new(alloc);
    let _ = home.store.dump(number, &mut bytes)?;
    let mut out = Printer::new(output);
    write_dump(&mut out, bytes.as_slice());
    out.end()?;
    Ok(())
}

/// Prints the bytes of each live segment.
fn dump_all<O: Write>(alloc: Global, home: &mut Home, output: &mut O) -> Result<(), Miss>
    requires { IsReady home.old holding }
    ensures { IsReady home.new holding }
{
    'segments: for index in 0..home.store.live() {
        dump_segment(alloc, home, index, output)?;
    }
    Ok(())
}

/// Prints a page.
fn print_page<O: Write>(home: &mut Home, page: u32, output: &mut O) -> Result<(), Miss>
    requires { IsReady home.old holding }
    ensures { IsReady home.new holding }
{
    let leaf = home.store.page(page)?;
    let mut out = Printer::new(output);
    write_page(&mut out, &leaf);
    out.end()?;
    Ok(())
}

/// Prints all pages, by number.
fn print_pages<O: Write>(home: &mut Home, output: &mut O) -> Result<(), Miss>
    requires { IsReady home.old holding }
    ensures { IsReady home.new holding }
{
    'pages: for index in 0..home.store.pages() {
        print_page(home, index.saturating_add(1), output)?;
    }
    Ok(())
}

/// Prints what an upgrade did, then the segments that stand, and all pages.
fn print_all<O: Write>(
    alloc: Global,
    home: &mut Home,
    upgraded: &Upgraded,
    output: &mut O,
) -> Result<(), Miss>
    requires { IsReady home.old holding }
    ensures { IsReady home.new holding }
{
    let mut out = Printer::new(output);
    write_upgraded(&mut out, upgraded);
    out.end()?;
    dump_all(alloc, home, output)?;
    print_pages(home, output)
}

/// Upgrades a store, and prints all of it.
fn upgrade_store<R: System, O: Write>(rt: &R, home: &mut Home, output: &mut O) -> Result<(), Miss>
    requires { IsReady home.old holding }
    ensures { IsReady home.new holding }
{
    let upgraded = home.store.upgrade()?;
    print_all(rt.alloc(), home, &upgraded, output)
}

/// An upgrade of a store, of which all is printed.
#[derive(Drop)]
struct Upgrading<'a, O> {
    output: &'a mut O,
}

impl<R: System, O: Write> Course<R> for Upgrading<'_, O> {
    type Answer = Result<(), Miss>;

    fn run(self, rt: &R, home: &mut Home) -> Result<(), Miss> {
        upgrade_store(rt, home, self.output)
    }
}

/// The segments, and the spares after them, with leases of this desk.
fn with_spares(
    alloc: Global,
    desk: &mut Desk,
    images: Vec<Image>,
) -> Result<Vec<MemSegment>, Miss> {
    let mut segments = copies_of(alloc, desk, images)?;
    for _ in 0..SPARES {
        segments.push(copy_of(alloc, desk, &[])?)?;
    }
    Ok(segments)
}

/// Upgrades the log that these segments hold, and prints all that stands then.
fn upgrade_all<R: System, O: Write>(
    rt: &R,
    images: Vec<Image>,
    output: &mut O,
) -> Result<(), Miss> {
    let mut desk = Desk::new(rt.alloc(), LEASES)?;
    let segments = with_spares(rt.alloc(), &mut desk, images)?;
    with_segments(
        rt,
        desk,
        segments,
        &Options::default(),
        Upgrading { output },
    )?
}

/// Makes a segment of each line, upgrades the log that they hold, and prints all that stands then.
pub fn upgrade<R: System, I: Read, O: Write>(
    rt: &R,
    input: &mut I,
    output: &mut O,
) -> Result<Met, Stop> {
    let images = match images(rt, None, input, &mut Unseen) {
        Ok(images) => images,
        Err((number, miss)) => return missed(output, number, miss),
    };
    match upgrade_all(rt, images, output) {
        Ok(()) => Ok(Met::NOTHING),
        Err(miss) => missed(output, 0, miss),
    }
}

// ---- a folder

/// Says that there was nothing to be done.
fn tell_new<O: Write>(output: &mut O) -> Result<Met, Stop> {
    let mut out = Printer::new(output);
    out.text(b"upgraded segments 0 pages 0 frames 0, no segment has format 1\n");
    out.end()?;
    Ok(Met::NOTHING)
}

/// Upgrades the store in a folder, where it stands, and says what was done.
pub fn upgrade_folder<R: System, O: Write, W: Watch>(
    rt: &R,
    path: &str,
    output: &mut O,
    watch: &mut W,
) -> Result<Met, Stop> {
    let held = folder_bytes(rt, path, MAX_LEASES, watch);
    watch.see(Work::Upgrading, 0, held);
    let upgraded = bw_home::upgrade(rt, path, leases_in(rt, Some(path)));
    watch.rest();
    let upgraded = match upgraded {
        Ok(upgraded) => upgraded,
        Err(HomeFault::Store(StoreFault::NothingOld)) => return tell_new(output),
        Err(fault) => return missed(output, 0, Miss::from(fault)),
    };
    let mut out = Printer::new(output);
    write_upgraded(&mut out, &upgraded);
    out.end()?;
    Ok(Met::NOTHING)
}
