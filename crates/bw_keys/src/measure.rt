//! How much room a cleaning wants, and what it wins, in bytes and in frames.

ghost use Rattle.bw_home.specs.Ready.{IsReady};

use bw_codec::limits::HEADER_LEN;
use bw_home::Home;

/// More than the Base of any page has.
const PAGE: u64 = 21_000;

/// What a cleaning writes beside the pages, at most: the heads of its frames, and of the segments
/// that it begins.
const LOST: u64 = 4_096;

/// How large the segments and the frames of a store are, in bytes.
#[derive(Debug, Clone, Copy)]
pub struct Measure {
    /// How many bytes a segment has room for that is added.
    pub capacity: u64,
    /// How many bytes a frame has at most.
    pub frame: u64,
}

/// The number of the newest segment and its length; 0 and 0 if there is none.
pub fn newest(home: &Home) -> (u64, u64)
    requires { IsReady home.now holding }
{
    match home.store.live_segment(home.store.live().saturating_sub(1)) {
        Some((segment, _, length)) => (segment, length),
        None => (0, 0),
    }
}

/// The number of the last frame that was appended, 0 before the first.
pub fn last_frame(home: &Home) -> u64
    requires { IsReady home.now holding }
{
    match home.store.next_frame() {
        Some(next) => next.saturating_sub(1),
        None => u64::MAX,
    }
}

/// How many records were taken.
pub fn taken(home: &Home) -> u64 {
    let kept = home.store.history().len() as u64;
    home.store.forgotten().saturating_add(kept)
}

/// How many bytes a cleaning of the oldest segment writes again of pages; `None` if there is no
/// other segment.
pub fn needed_of_oldest(home: &Home) -> Option<u64>
    requires { IsReady home.now holding }
{
    if home.store.live() > 1 {
        home.store.needed(0)
    } else {
        None
    }
}

/// How many bytes a cleaning of each segment would write, all together.
fn needed_of_all(home: &Home) -> u64
    requires { IsReady home.now holding }
{
    let mut needed = 0u64;
    for i in 0..home.store.live() {
        needed = needed.saturating_add(home.store.needed(i).unwrap_or(0));
    }
    needed
}

impl Measure {
    /// How many spares are kept for a flush and a cleaning if there are as many segments as may be,
    /// or nearly so: one, and up to three if a segment has room for fewer than eight frames.
    fn kept_at_last(&self, most: u32) -> u32 {
        if self.capacity / 8 >= self.frame {
            1
        } else {
            (most / 2).max(1).min(3)
        }
    }

    /// If so many spares are left, or fewer, room is made. Up to so many segments are added.
    pub fn kept(&self, home: &Home, most: u32) -> u32
        requires { IsReady home.now holding }
    {
        let kept = self.kept_at_last(most);
        let segments = home.store.live().saturating_add(home.store.spares());
        if segments.saturating_add(kept) > most {
            kept
        } else {
            1
        }
    }

    /// Half of the room of a segment.
    pub fn half(&self) -> u64 {
        self.capacity / 2
    }

    /// Seven eighths of it.
    fn most_of_eight(&self) -> u64 {
        self.capacity.saturating_sub(self.capacity / 8)
    }

    /// The bytes of a segment after its header.
    pub fn room(&self) -> u64 {
        self.capacity.saturating_sub(HEADER_LEN as u64)
    }

    /// How many frames surely fit so many bytes, if a frame goes whole into a segment.
    fn frames_in(&self, bytes: u64) -> u64 {
        bytes / self.frame.max(1)
    }

    /// How many frames pages with so many bytes fill at most.
    fn frames_of(&self, needed: u64) -> u64 {
        let filled = self.frame.saturating_sub(PAGE).max(1);
        (needed / filled).saturating_add(1)
    }

    /// How many segments records with so many bytes fill at most.
    pub fn segments_of(&self, bytes: u64) -> u32 {
        let each = self.frames_in(self.room()).max(1);
        let segments = self.frames_of(bytes) / each;
        u32::try_from(segments)
            .unwrap_or(u32::MAX)
            .saturating_add(1)
    }

    /// About how many bytes of room a cleaning takes that writes so many bytes of pages: at the end
    /// of each frame half a page does not fit.
    fn taken_by(&self, needed: u64) -> u64 {
        let filled = self.frame.saturating_sub(PAGE / 2).max(1);
        (needed / filled)
            .saturating_add(1)
            .saturating_mul(self.frame)
    }

    /// How many spares are wanted so that blocks with so many bytes surely find room, if so many
    /// are left of the newest segment, and what was taken after the last frame goes before them.
    pub fn spares_for(&self, rest: u64, bytes: u64) -> u64 {
        let each = self.frames_in(self.room()).max(1);
        let wanted = self.frames_of(bytes).saturating_add(1);
        wanted
            .saturating_sub(self.frames_in(rest))
            .saturating_add(each - 1)
            / each
    }

    /// Whether a cleaning surely finds room: so many bytes of pages are written again, and what
    /// waits before them, if something does, into what is left of the newest segment and the
    /// spares. If neither what waits nor a further record finds room without it, it is tried at the
    /// last spare all the same.
    pub fn fits(&self, home: &Home, rest: u64, waits: bool, needed: u64) -> bool
        requires { IsReady home.now holding }
    {
        let each = self.frames_in(self.room()).max(1);
        let spares = u64::from(home.store.spares());
        let whole = self.frames_in(rest);
        let room = spares.saturating_mul(each).saturating_add(whole);
        let moved = self.frames_of(needed);
        let is_last = spares == 1 && whole == 0;
        moved <= room && (is_last || !waits || moved < room)
    }

    /// Whether a cleaning takes no more than what is left of the newest segment and one spare, so
    /// that as many spares are left after it.
    pub fn takes_one(&self, rest: u64, needed: u64) -> bool {
        let each = self.frames_in(self.room()).max(1);
        self.frames_of(needed) <= each.saturating_add(self.frames_in(rest))
    }

    /// Whether a cleaning writes at most half of what it gives back: the whole room of a segment,
    /// also if the oldest was closed before it was full.
    pub fn wins_half(&self, needed: u64) -> bool {
        needed < self.half().saturating_sub(LOST)
    }

    /// Whether it wins an eighth of a segment at least.
    pub fn wins_eighth(&self, needed: u64) -> bool {
        self.taken_by(needed) <= self.most_of_eight()
    }

    /// Whether an eighth of the bytes of all closed segments is not needed, so that a cleaning of
    /// each of them in turn wins that.
    pub fn is_eighth_waste(&self, home: &Home) -> bool
        requires { IsReady home.now holding }
    {
        let closed = u64::from(home.store.live().saturating_sub(1));
        let most = self.most_of_eight().saturating_mul(closed);
        self.taken_by(needed_of_all(home)) <= most
    }
}
