//! The table of places, changed by what a frame's blocks do. None of it takes memory.
//!
//! The frame's bytes are out by then, and nothing may be refused any more: a table that lacks a
//! frame which the segment has would send the next read of a page past its newest records. So room
//! for every page that a frame of this length could name was made before the device was asked.

ghost use Rattle.std.specs.Prelude.{◌≡◌, ◌+◌, ◌-◌, ◌≤◌, length, vec_len};
ghost use Rattle.std.specs.Vec.{vec_capacity};
ghost use Rattle.bw_log.specs.PageTable.{noted, noted_all, HasLines, HaveLines, top_of, top_page, grown_to};

use crate::places::PageAt;
use bw_buffer::{Buffer, Mark};
use bw_codec::Place;

/// Where a block of this kind stands.
fn note(pages: &mut Vec<PageAt>, mark: Mark, place: Place)
    requires { HasLines mark (length pages.old.items) }
    ensures { pages.new.items ≡ noted mark place pages.old.items }
{
    // Shows the proof that the lines are as many as the `Vec` is long.
    let _ = pages.as_slice().len();
    match mark {
        Mark::Changes(page) => {
            pages[page as usize - 1] = pages[page as usize - 1].changed(place);
        }
        Mark::Sets(page) => {
            pages[page as usize - 1] = PageAt::set(place);
        }
        Mark::Splits(page, made) => {
            pages[page as usize - 1] = pages[page as usize - 1].changed(place);
            pages[made as usize - 1] = PageAt::set(place);
        }
    }
}

/// Where the blocks of a buffer's frame stand.
pub(crate) fn note_all(pages: &mut Vec<PageAt>, buffer: &Buffer)
    requires { HaveLines buffer.now.blocks (length pages.old.items) }
    ensures { pages.new.items ≡ noted_all buffer.now.frame 0 buffer.now.blocks pages.old.items }
{
    let frame = buffer.frame();
    for index in 0..buffer.count() {
        note(pages, buffer.mark(index), Place { frame, index });
    }
}

fn top_of_mark(mark: Mark) -> u32
    ensures { result ≡ top_of mark }
{
    match mark {
        Mark::Changes(page) => page,
        Mark::Sets(page) => page,
        Mark::Splits(page, made) => page.max(made),
    }
}

/// The greatest page that a buffer's blocks speak of.
pub(crate) fn top(buffer: &Buffer) -> u32
    ensures { result ≡ top_page buffer.now.blocks }
{
    let mut best: u32 = 0;
    for index in 0..buffer.count() {
        best = best.max(top_of_mark(buffer.mark(index)));
    }
    best
}

/// Lines up to a page, if there is room for them.
pub(crate) fn grow(pages: &mut Vec<PageAt>, top: u32)
    requires { vec_len pages.old + (top - length pages.old.items) ≤ vec_capacity pages.old }
    ensures { pages.new.items ≡ grown_to top pages.old.items }
{
    let missing = (top as usize).saturating_sub(pages.as_slice().len());
    for _i in 0..missing {
        pages.push_reserved(PageAt::NONE);
    }
}
