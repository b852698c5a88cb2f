//! What segments hold, for people: in words, in numbers, as a picture, and as of an earlier frame;
//! and what is said of work, and of the times of frames.
//!
//! What shows segments reads only bytes, and changes none. Whether segments are those of a log is
//! not judged here but by recovery, which the program asks first if an answer hangs on it.
//!
//! A listing goes as far as the first fault, and says it. Numbers and pictures go by one survey of
//! where each frame and block stands. A block is needed if a read of its page would come to it:
//! from the page's last setting block on. What a cleaning would win hangs only on that, so it is
//! shown beside the bytes.
//!
//! Work that goes on says to a `Watch` how far it is. `Progress` shows that on a terminal, by one
//! line that is written over, once the whole has taken a second; if there is no terminal, it shows
//! nothing of it, and a run pays a call for it. What happens to a store is an `Event`, which it
//! writes if it is asked for. `Unseen` shows nothing at all. Whoever works writes, and no thread of
//! its own: standard error has one writer.
//!
//! A `Note` says that a frame was the last one of its log that was durable, at a `Moment`, a second
//! of UTC. The notes of a folder stand in its file `times`, a line each
//! ([FORMAT](../../../docs/FORMAT.md), "Times"). A `Noting` appends them, without a sync of their
//! own; `notes_in` reads them. Nothing of a log hangs on them: a note that was lost or damaged is
//! one that nobody finds.
//!
//! Only `kept_bytes` has a clause. A restore also asks `Survey` and `pages_at`; nothing hangs on what
//! else is said.
#![tactic(auto)]

mod amount;
mod counts;
mod event;
mod frames;
mod image;
mod limits;
mod listing;
mod moment;
mod notes;
mod noting;
mod picture;
mod printer;
mod progress;
mod restored;
mod survey;
mod watch;
mod words;

pub use amount::{Amount, Unit};
pub use counts::{Counts, write_counts};
pub use event::{Event, Hearing};
pub use frames::{Frames, Step};
pub use image::Image;
pub use limits::{Limits, frame_in_folder, limits_in};
pub use listing::write_image;
pub use moment::{Moment, now};
pub use notes::{Note, carry, noted_at, notes_in};
pub use noting::Noting;
pub use picture::{Scene, write_picture};
pub use printer::{NotWritten, Printer};
pub use progress::{Progress, folder_bytes, input_bytes};
pub use restored::{kept_bytes, pages_at};
pub use survey::{BlockRow, FrameRow, Kind, SegmentRow, Survey};
pub use watch::{Unseen, Watch, Work};
pub use words::{write_counted, write_hex, write_page, write_pair, write_record, write_word};
