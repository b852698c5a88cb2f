//! Where frames and pages stand.
//!
//! A link on the disk is a frame's number with the index of a block, and no offset: recovery checks
//! it by what it has read before, in whatever order the segments were handed in. The price is a
//! look-up: a line of each frame says in which segment it stands, and where its blocks begin.
//!
//! Of each page it is also counted from how many frames it is read. A page that one record of each
//! frame changes would else be read from thousands of frames, and nobody would know which pages to
//! write again.

ghost use Rattle.std.specs.Prelude.{◌≡◌};
ghost use Rattle.bw_log.specs.PageTable.{changed_line, set_line};

use crate::starts::Starts;
use bw_codec::Place;

/// Where a frame stands, and its blocks in it.
#[derive(Drop)]
pub struct FrameAt {
    /// The frame's number.
    pub number: u64,
    /// The number of its segment.
    pub segment: u64,
    /// Where in the segment it begins, in bytes.
    pub at: u64,
    /// How long it is, in bytes.
    pub len: u32,
    /// Where its blocks begin, in bytes from its beginning.
    pub starts: Starts,
}

/// The last blocks of a page. A place of frame 0 is none.
#[derive(Debug, Clone, Copy, PartialEq, Eq)]
pub struct PageAt {
    /// The last block that touches the page.
    pub place: Place,
    /// The last block that sets it.
    pub base: Place,
    /// In how many frames blocks of the page stand since that one, its frame among them: a read of
    /// the page reads so many.
    pub walk: u64,
}

impl PageAt {
    /// Of a page of which no block speaks yet.
    pub const NONE: PageAt = PageAt {
        place: Place { frame: 0, index: 0 },
        base: Place { frame: 0, index: 0 },
        walk: 0,
    };

    /// Where a block that sets the page stands here.
    pub fn set(place: Place) -> PageAt
        ensures { result ≡ set_line place }
    {
        PageAt {
            place,
            base: place,
            walk: 1,
        }
    }

    /// Where a block that changes or splits the page stands here.
    pub fn changed(self, place: Place) -> PageAt
        ensures { result ≡ changed_line place self }
    {
        let walk = if self.place.frame == place.frame {
            self.walk
        } else {
            self.walk.saturating_add(1)
        };
        PageAt {
            place,
            base: self.base,
            walk,
        }
    }
}

/// What a scan found: limits, the oldest live segment's number, the version of each live segment in
/// order, whether the newest takes frames, where each whole frame stands (its segment by position
/// among the live ones), and where each page does.
#[derive(Drop)]
pub struct Tables {
    pub m: u16,
    pub f: u32,
    pub number: u64,
    pub versions: Vec<u16>,
    pub is_open: bool,
    pub frames: Vec<FrameAt>,
    pub pages: Vec<PageAt>,
}
