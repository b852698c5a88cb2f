//! A log over segments that a scan found.
//!
//! Recovery has just read each byte, so nothing is read again: its tables say where frames and
//! pages stand. They name a segment by its position among the live ones, and get the numbers here.
//! The newest segment goes on only if it has version 2 and no tail. A frame after a torn one would
//! never be found: reading a segment ends at its tail.

ghost use Rattle.std.specs.Prelude.{◌≡◌, ◌+◌, ◌^◌, ◌<◌, Some, map};
ghost use Rattle.std.specs.List.{AllByRecursion};
ghost use Rattle.bw_log.specs.Adopting.{next_in, in_segments, old_in, adopted, IsAdoptable};

use crate::log::Log;
use crate::places::{FrameAt, Tables};
use bw_device::Segment;

// Names each line's segment by its number, and answers the number after the last line's.
fn number_lines(lines: &mut Vec<FrameAt>, number: u64) -> Option<u64>
    requires { AllByRecursion (λ e. number + e.segment < 2 ^ 64) lines.old.items }
    ensures lines { lines.new.items ≡ in_segments number lines.old.items }
    ensures next { result ≡ next_in lines.old.items }
{
    let mut next = Some(1);
    for i in 0..lines.as_slice().len() {
        let line = &mut lines[i];
        next = line.number.checked_add(1);
        line.segment = number + line.segment;
    }
    next
}

// How many of the first segments have version 1.
fn old_in(versions: &[u16]) -> usize
    ensures { result ≡ old_in versions.now }
{
    let mut count = 0;
    for version in versions {
        if *version != 1 {
            return count;
        }
        count += 1;
    }
    count
}

impl Log {
    ghost use Rattle.bw_log.specs.Views.{seen_by, IsSound};

    /// A log over live segments in the order of their numbers, which a scan found whole and linked,
    /// with tables that say where each whole frame and each page's last blocks stand. No memory is
    /// taken.
    pub fn adopt(live: Vec<Box<dyn Segment>>, spares: Vec<Box<dyn Segment>>, tables: Tables) -> Log
        requires { IsAdoptable (map holding live.items) (map holding spares.items) tables }
        ensures made { seen_by holding result
            ≡ adopted (map holding live.items) (map holding spares.items) tables }
        ensures sound { IsSound holding result }
    {
        let Tables {
            m,
            f,
            number,
            versions,
            is_open,
            frames,
            pages,
        } = tables;
        let old_to = number - 1 + old_in(&versions) as u64;
        let mut frames = frames;
        let next = number_lines(&mut frames, number);
        Log {
            live,
            spares,
            m,
            f,
            number,
            old_to,
            is_open,
            is_failed: false,
            next,
            frames,
            pages,
        }
    }
}
