//! The calls that a run of writers makes. Each leaves the home ready.

ghost use Rattle.std.specs.Prelude.{◌≡◌, vec_len};
ghost use Rattle.bw_home.specs.Sharing.{IsShared};

use bw_codec::{Key, Leaf, Value};
use bw_core::StoreFault;
use bw_drive::{DriveFault, Driven, OpenGate, Plan, drive as drive_store};
use bw_home::SharedHome;
use bw_ring::Group;
use bw_words::{Host, Miss, Pace, Refusal, Stop};
use std::alloc::{AllocError, Global};
use std::mem;

/// What a run leaves beside the store.
#[derive(Drop)]
pub struct Run {
    /// The length of the history.
    pub entries: u64,
    /// How many records of each writer's script were accepted: those of its first groups.
    pub accepted: Vec<u64>,
}

// The pairs of a page go after those of the pages before it.
fn append(pairs: &mut Vec<(Key, Value)>, leaf: &Leaf) -> Result<(), AllocError> {
    for pair in leaf.pairs.as_slice() {
        pairs.push((pair.to_key(), pair.to_value()))?;
    }
    Ok(())
}

/// Puts each script by a writer in a thread of its own, and settles.
fn drive<R: Host>(
    rt: &R,
    home: &mut SharedHome,
    scripts: Vec<Vec<Group>>,
    pace: Pace,
) -> Result<Run, Refusal>
    requires ready { IsShared home.old holding }
    requires one_each { vec_len scripts ≡ vec_len home.old.feeds }
    ensures { IsShared home.new holding }
{
    let plan = Plan {
        limit: pace.limit.max(1),
        flush_every: pace.flush_every.max(1),
        clean_at: pace.clean_at,
        forgets: pace.forgets,
    };
    let tries = u64::from(pace.tries);
    let feeds = mem::replace(&mut home.feeds, Vec::new(rt.alloc()));
    match drive_store(rt, &mut home.store, feeds, scripts, &OpenGate, plan, tries) {
        Ok(
            Driven {
                feeds,
                accepted,
                entries,
            },
        ) => {
            home.feeds = feeds;
            Ok(Run { entries, accepted })
        }
        Err(DriveFault { feeds, cause }) => {
            home.feeds = feeds;
            Err(Refusal::from(cause))
        }
    }
}

// The pairs of a page go after those of the pages before it; `false` if there is none of that
// number.
fn append_page(
    home: &mut SharedHome,
    page: u32,
    pairs: &mut Vec<(Key, Value)>,
) -> Result<bool, Miss>
    requires { IsShared home.old holding }
    ensures { IsShared home.new holding }
{
    match home.store.page(page) {
        Ok(leaf) => {
            append(pairs, &leaf)?;
            Ok(true)
        }
        Err(StoreFault::NoPage) => Ok(false),
        Err(fault) => Err(Miss::from(fault)),
    }
}

/// The pairs of all pages, page by page.
pub fn pairs_of(alloc: Global, home: &mut SharedHome) -> Result<Vec<(Key, Value)>, Miss>
    requires { IsShared home.old holding }
    ensures { IsShared home.new holding }
{
    let mut pairs = Vec::new(alloc);
    // Fewer pages than that fit the segments of a desk.
    'pages: for page in 1..u32::MAX {
        if !append_page(home, page, &mut pairs)? {
            return Ok(pairs);
        }
    }
    Ok(pairs)
}

/// Puts each script as `drive` does, and then empties the files of what was given up: no lease was
/// taken meanwhile, so these could wait.
pub fn drive_tended<R: Host>(
    rt: &R,
    home: &mut SharedHome,
    scripts: Vec<Vec<Group>>,
    pace: Pace,
) -> Result<Result<Run, Refusal>, Stop>
    requires ready { IsShared home.old holding }
    requires one_each { vec_len scripts ≡ vec_len home.old.feeds }
    ensures { IsShared home.new holding }
{
    let row = home.row()?;
    let driven = drive(rt, home, scripts, pace);
    home.empty_row(rt, row.as_slice())?;
    Ok(driven)
}
