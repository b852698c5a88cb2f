//! A log as a picture: an SVG that any browser shows.
//!
//! Each segment has a bar, in the order of their numbers and to one scale of bytes: what is needed
//! of it, what is not any more, and what is free. Below it stands where. Few blocks are drawn each,
//! to the scale of the longest segment: in the colour of its page, and pale if a later block says
//! all of that page, with its frame around. Of many is drawn how much of each stretch is needed. So
//! the picture stays small, however many pages there are. At the end pages are counted by how many
//! pairs they have.

use crate::amount::{Amount, Unit};
use crate::counts::{needed_in, rewritten_in};
use crate::printer::Printer;
use crate::survey::{BlockRow, FrameRow, SegmentRow, Survey};
use std::io::Write;

/// What a picture shows beside the blocks.
#[derive(Debug, Clone, Copy)]
pub struct Scene<'a> {
    /// Segments without a byte.
    pub spares: u64,
    pub pages: u64,
    /// The pairs on all pages.
    pub pairs: u64,
    /// How many pages have no pair, how many have one, and so on.
    pub fills: &'a [u64],
    /// How long the Base of each page is, from page 1 on.
    pub lengths: &'a [u64],
    /// How many bytes a segment has room for; it may be given too small.
    pub room: u64,
}

/// How wide a segment is drawn.
const WIDTH: u64 = 800;

/// Where the bars begin from the left, after their names.
const LEFT: u64 = 150;

/// How much room the numbers have after the bars.
const BEHIND: u64 = 640;

/// Where the first bar begins from the top, and how far the next one stands below.
const TOP: u64 = 92;

const STEP: u64 = 44;

/// How high a bar is, and what stands below it.
const BAR: u64 = 16;

const MAP: u64 = 12;

/// Up to so many blocks each one is drawn.
const FEW: usize = 600;

/// Into so many stretches a segment is parted if there are more.
const CELLS: u64 = 200;

/// How high the longest bar of the pages is, and how wide each of them.
const PAGES_HIGH: u64 = 90;

const PAGES_WIDE: u64 = 22;

const NEEDED: &str = "#2e7d52";

const OVER: &str = "#e0a33e";

const FREE: &str = "#ececec";

/// The length of the longest segment, at least this.
fn longest(survey: &Survey, least: u64) -> u64 {
    let mut most = least;
    for row in survey.segments() {
        most = most.max(row.len as u64);
    }
    most
}

/// Where so many bytes end, from the left.
fn scaled(bytes: u64, room: u64) -> u64 {
    LEFT.saturating_add(bytes.saturating_mul(WIDTH) / room.max(1))
}

/// Where the bar of a segment begins, from the top.
fn top_of(segment: usize) -> u64 {
    (segment as u64).saturating_mul(STEP).saturating_add(TOP)
}

fn bytes(count: u64) -> Amount {
    Amount {
        count,
        unit: Unit::Bytes,
    }
}

/// A rectangle from one place to another, up to its colours; it is a point wide at least.
fn write_rect<O: Write>(out: &mut Printer<'_, O>, from: u64, to: u64, top: u64, high: u64) {
    out.named("<rect x=\"", from);
    out.named("\" y=\"", top);
    out.named("\" width=\"", to.saturating_sub(from).max(1));
    out.named("\" height=\"", high);
    out.text(b"\" ");
}

/// A rectangle from one place to another in a colour, if it has some width.
fn write_part<O: Write>(out: &mut Printer<'_, O>, from: u64, to: u64, top: u64, fill: &str) {
    if from < to {
        write_rect(out, from, to, top, BAR);
        out.named("fill=\"", fill);
        out.text(b"\"/>\n");
    }
}

/// A text from a place on.
fn begin_text<O: Write>(out: &mut Printer<'_, O>, left: u64, base: u64) {
    out.named("<text x=\"", left);
    out.named("\" y=\"", base);
    out.text(b"\">");
}

/// So much of so much, in percent.
fn percent(count: u64, of: u64) -> u64 {
    let of = of.max(1);
    count.saturating_mul(100).saturating_add(of / 2) / of
}

/// A kind of bytes by its name, with its part of all.
fn write_share<O: Write>(out: &mut Printer<'_, O>, name: &str, count: u64, of: u64) {
    out.named(name, bytes(count));
    out.named(" (", percent(count, of));
    out.text(b" %)");
}

/// What a segment has of each kind.
#[derive(Clone, Copy)]
struct Parts {
    needed: u64,
    /// Heads of frames are among them: a cleaning gives them back.
    over: u64,
    free: u64,
    /// How many bytes of pages a cleaning would write again.
    rewritten: u64,
}

impl Parts {
    fn of(survey: &Survey, segment: usize, row: &SegmentRow, lengths: &[u64], room: u64) -> Parts {
        let len = row.len as u64;
        let needed = needed_in(survey, segment).min(len);
        Parts {
            needed,
            over: len.saturating_sub(needed),
            free: room.saturating_sub(len),
            rewritten: rewritten_in(survey, segment, lengths),
        }
    }

    fn and(self, other: Parts) -> Parts {
        Parts {
            needed: self.needed.saturating_add(other.needed),
            over: self.over.saturating_add(other.over),
            free: self.free.saturating_add(other.free),
            rewritten: self.rewritten.saturating_add(other.rewritten),
        }
    }

    fn all(&self) -> u64 {
        self.needed
            .saturating_add(self.over)
            .saturating_add(self.free)
    }
}

/// The numbers of a segment, or of all.
fn write_shares<O: Write>(out: &mut Printer<'_, O>, parts: Parts) {
    let all = parts.all();
    write_share(out, "needed ", parts.needed, all);
    write_share(out, ", no longer ", parts.over, all);
    write_share(out, ", free ", parts.free, all);
    out.named("; cleaning writes ", bytes(parts.rewritten));
}

/// The bar of a segment, its name before and its numbers after it.
fn write_segment<O: Write>(
    out: &mut Printer<'_, O>,
    index: usize,
    row: &SegmentRow,
    parts: Parts,
    room: u64,
) {
    let top = top_of(index);
    begin_text(out, 8, top.saturating_add(13));
    out.named("segment ", row.number);
    if let Some(lease) = row.lease {
        out.named(", lease ", lease);
    }
    out.text(b"</text>\n");
    let needed = scaled(parts.needed, room);
    let written = scaled(row.len as u64, room);
    write_part(out, LEFT, needed, top, NEEDED);
    write_part(out, needed, written, top, OVER);
    write_part(out, written, LEFT + WIDTH, top, FREE);
    begin_text(out, LEFT + WIDTH + 10, top.saturating_add(13));
    write_shares(out, parts);
    out.text(b"</text>\n");
}

// ---- few blocks: each one

/// Where a stretch of a segment stands below its bar, up to its colours.
fn write_stretch<O: Write>(
    out: &mut Printer<'_, O>,
    segment: usize,
    at: usize,
    len: usize,
    room: u64,
) {
    let from = scaled(at as u64, room);
    let to = scaled((at as u64).saturating_add(len as u64), room);
    let top = top_of(segment).saturating_add(BAR + 2);
    write_rect(out, from, to, top, MAP);
}

fn write_block<O: Write>(out: &mut Printer<'_, O>, row: &BlockRow, is_needed: bool, room: u64) {
    write_stretch(out, row.segment, row.at, row.len, room);
    // Numbers near each other get colours that are far apart.
    out.named("fill=\"hsl(", u64::from(row.page).saturating_mul(137) % 360);
    if is_needed {
        out.text(b",65%,50%)\">");
    } else {
        out.text(b",65%,50%)\" fill-opacity=\"0.2\">");
    }
    out.named("<title>frame ", row.frame);
    out.named(" page ", row.page);
    out.named(" bytes ", row.len);
    out.text(b"</title></rect>\n");
}

fn write_frame<O: Write>(out: &mut Printer<'_, O>, row: &FrameRow, room: u64) {
    write_stretch(out, row.segment, row.at, row.len, room);
    out.text(b"fill=\"none\" stroke=\"#444\" stroke-width=\"0.6\"/>\n");
}

fn write_each<O: Write>(out: &mut Printer<'_, O>, survey: &Survey) {
    let room = longest(survey, 1);
    for (index, row) in survey.blocks().iter().enumerate() {
        write_block(out, row, survey.is_needed(index, row), room);
    }
    for row in survey.frames() {
        write_frame(out, row, room);
    }
}

// ---- many blocks: how much of each stretch is needed

/// Where the stretch of this number begins, in bytes.
fn cell_at(cell: u64, room: u64) -> u64 {
    cell.saturating_mul(room) / CELLS
}

/// How many bytes of a block stand in a stretch.
fn within(row: &BlockRow, from: u64, to: u64) -> u64 {
    let at = row.at as u64;
    let end = at.saturating_add(row.len as u64);
    end.min(to).saturating_sub(at.max(from))
}

/// Adds the bytes of a block to those of the stretches that it stands in.
fn add_block(cells: &mut [u64], row: &BlockRow, room: u64) {
    let at = row.at as u64;
    let end = at.saturating_add(row.len as u64);
    let first = at.saturating_mul(CELLS) / room.max(1);
    let last = end.saturating_mul(CELLS) / room.max(1);
    for cell in first..last.saturating_add(1) {
        if let Some(bytes) = cells.get_mut(cell as usize) {
            let more = within(
                row,
                cell_at(cell, room),
                cell_at(cell.saturating_add(1), room),
            );
            *bytes = bytes.saturating_add(more);
        }
    }
}

/// How many bytes of each stretch of a segment are needed.
fn needed_cells(survey: &Survey, segment: usize, room: u64) -> [u64; CELLS as usize] {
    let mut cells = [0u64; CELLS as usize];
    for (index, row) in survey.blocks().iter().enumerate() {
        if row.segment == segment && survey.is_needed(index, row) {
            add_block(&mut cells, row, room);
        }
    }
    cells
}

/// The stretches of a segment, as far as it has bytes: the more of one is needed, the fuller is its
/// colour.
fn write_cells<O: Write>(
    out: &mut Printer<'_, O>,
    segment: usize,
    row: &SegmentRow,
    cells: &[u64],
    room: u64,
) {
    let top = top_of(segment).saturating_add(BAR + 2);
    write_rect(out, LEFT, scaled(row.len as u64, room), top, MAP);
    out.named("fill=\"", OVER);
    out.text(b"\"/>\n");
    for (cell, needed) in cells.iter().enumerate() {
        if *needed > 0 {
            let from = cell_at(cell as u64, room);
            let to = cell_at((cell as u64).saturating_add(1), room);
            write_rect(out, scaled(from, room), scaled(to, room), top, MAP);
            let part = needed.saturating_mul(100) / to.saturating_sub(from).max(1);
            out.named("fill=\"", NEEDED);
            out.named("\" fill-opacity=\"", part.min(100));
            out.text(b"%\"/>\n");
        }
    }
}

/// The stretches of all segments.
fn write_maps<O: Write>(out: &mut Printer<'_, O>, survey: &Survey, room: u64) {
    for (index, row) in survey.segments().iter().enumerate() {
        let cells = needed_cells(survey, index, room);
        write_cells(out, index, row, &cells, room);
    }
}

// ---- the whole

/// Over the bar of each segment, where so many bytes are.
fn write_ticks<O: Write>(out: &mut Printer<'_, O>, rows: usize, left: u64) {
    for row in 0..rows {
        write_rect(out, left, 0, top_of(row).saturating_sub(2), BAR + 4);
        out.text(b"fill=\"#888\"/>\n");
    }
}

/// The scale: four parts of what the bars stand for.
fn write_scale<O: Write>(out: &mut Printer<'_, O>, rows: usize, room: u64) {
    for part in 0..5u64 {
        let at = room.saturating_mul(part) / 4;
        let left = scaled(at, room);
        write_ticks(out, rows, left);
        begin_text(out, left, top_of(rows).saturating_add(4));
        out.named("", bytes(at));
        out.text(b"</text>\n");
    }
}

/// A square of a colour, and what it stands for.
fn write_key<O: Write>(out: &mut Printer<'_, O>, left: u64, fill: &str, text: &[u8]) {
    write_rect(out, left, left.saturating_add(12), 58, 12);
    out.named("fill=\"", fill);
    out.text(b"\"/>\n");
    begin_text(out, left.saturating_add(18), 68);
    out.text(text);
    out.text(b"</text>\n");
}

/// What stands above the bars.
fn write_front<O: Write>(out: &mut Printer<'_, O>, survey: &Survey, scene: &Scene<'_>) {
    begin_text(out, 8, 20);
    out.named("segments ", survey.segments().len());
    out.named(", spares ", scene.spares);
    out.named(", frames ", survey.frames().len());
    out.named(", pages ", scene.pages);
    out.named(", pairs ", scene.pairs);
    out.text(b"</text>\n");
    write_key(out, LEFT, NEEDED, b"needed");
    write_key(out, LEFT + 110, OVER, b"no longer needed");
    write_key(out, LEFT + 280, FREE, b"free");
    begin_text(out, LEFT + 360, 68);
    if survey.blocks().len() > FEW {
        out.text(b"Below a bar: the fuller the green, the more of that stretch is needed.");
    } else {
        out.named("Below a bar, ", bytes(longest(survey, 1)));
        out.text(b" wide: each block in the colour of its page, pale where no longer needed.");
    }
    out.text(b"</text>\n");
}

/// The bars of all segments, and above them what all of them have.
fn write_bars<O: Write>(out: &mut Printer<'_, O>, survey: &Survey, scene: &Scene<'_>, room: u64) {
    let mut all = Parts {
        needed: 0,
        over: 0,
        free: 0,
        rewritten: 0,
    };
    for (index, row) in survey.segments().iter().enumerate() {
        let parts = Parts::of(survey, index, row, scene.lengths, room);
        write_segment(out, index, row, parts, room);
        all = all.and(parts);
    }
    begin_text(out, 8, 40);
    write_shares(out, all);
    out.text(b"</text>\n");
}

/// The most pages that have one number of pairs, 1 at least.
fn most_of(fills: &[u64]) -> u64 {
    let mut most = 1;
    for pages in fills {
        most = most.max(*pages);
    }
    most
}

/// The bar of the pages that have so many pairs, with their number above and the pairs below.
fn write_fill<O: Write>(
    out: &mut Printer<'_, O>,
    pairs: usize,
    pages: u64,
    most: u64,
    bottom: u64,
) {
    let left = (pairs as u64)
        .saturating_mul(PAGES_WIDE)
        .saturating_add(LEFT);
    let high = pages.saturating_mul(PAGES_HIGH) / most.max(1);
    let top = bottom.saturating_sub(high);
    if pages > 0 {
        write_rect(
            out,
            left,
            left.saturating_add(PAGES_WIDE - 4),
            top,
            high.max(1),
        );
        out.text(b"fill=\"#4a7ab5\"><title>");
        out.named("pages ", pages);
        out.text(b"</title></rect>\n");
    }
    begin_text(out, left, bottom.saturating_add(14));
    out.named("", pairs);
    out.text(b"</text>\n");
    if pages == most {
        begin_text(out, left, top.saturating_sub(4));
        out.named("", pages);
        out.text(b"</text>\n");
    }
}

/// How many pages have so many pairs, from none to the most that a page holds.
fn write_fills<O: Write>(out: &mut Printer<'_, O>, scene: &Scene<'_>, top: u64) {
    begin_text(out, 8, top.saturating_add(18));
    out.text(b"Pages by their pairs");
    let room = scene
        .pages
        .saturating_mul(scene.fills.len().saturating_sub(1) as u64);
    out.named(": ", scene.pairs);
    out.named(" of ", room);
    out.named(" (", percent(scene.pairs, room));
    out.text(b" %)</text>\n");
    let bottom = top.saturating_add(PAGES_HIGH + 46);
    let most = most_of(scene.fills);
    for (pairs, pages) in scene.fills.iter().enumerate() {
        write_fill(out, pairs, *pages, most, bottom);
    }
}

fn write_head<O: Write>(out: &mut Printer<'_, O>, high: u64) {
    out.named(
        "<svg xmlns=\"http://www.w3.org/2000/svg\" width=\"",
        LEFT + WIDTH + BEHIND,
    );
    out.named("\" height=\"", high);
    out.text(b"\" font-family=\"sans-serif\" font-size=\"12\">\n");
    out.text(b"<rect width=\"100%\" height=\"100%\" fill=\"white\"/>\n");
}

/// Writes the picture.
pub fn write_picture<O: Write>(out: &mut Printer<'_, O>, survey: &Survey, scene: &Scene<'_>) {
    let room = longest(survey, scene.room.max(1));
    let rows = survey.segments().len();
    let below = top_of(rows).saturating_add(24);
    write_head(out, below.saturating_add(PAGES_HIGH + 70));
    write_front(out, survey, scene);
    write_bars(out, survey, scene, room);
    if survey.blocks().len() > FEW {
        write_maps(out, survey, room);
    } else {
        write_each(out, survey);
    }
    write_scale(out, rows, room);
    write_fills(out, scene, below);
    out.text(b"</svg>\n");
}
