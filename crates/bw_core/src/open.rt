//! A store is opened over empty segments.
//!
//! The first frame has page 1, empty: recovery finds no page that was never set, and a log without
//! any page is refused. It is not appended here. A store that was opened and stopped holds nothing,
//! and whoever opens the same segments again begins anew.

ghost use Rattle.std.specs.Prelude.{ℕ, ◌≡◌, ◌↔◌, true, false, [], ◌∷◌, length, map, IsTrue, IfOk, IfErr, MatchResult};
ghost use Rattle.bw_ring.specs.Ends.{ring_of_feed, ring_of_lane};
ghost use Rattle.bw_making.specs.Begun.{first_place, first_making};
ghost use Rattle.bw_making.specs.Overlay.{is_made};
ghost use Rattle.bw_page.specs.Shown.{is_evicted_page};
ghost use Rattle.bw_core.specs.Opened.{opened, one_empty, AreFresh, AreTaken, IsOpenFault};
ghost use Rattle.bw_terms.specs.Ranges.{IsConfig};
ghost use Rattle.bw_core.specs.Counting.{noted_from};
ghost use Rattle.bw_core.specs.Reopened.{reopened};
ghost use Rattle.bw_care.specs.Tallies.{bytes_of, up};
ghost use Rattle.bw_care.specs.Views.{seen, IsSound as IsSoundLog};

use crate::origin::{Origin, edge_of};
use crate::store::{Core, Counts, Pages, Seals};
use bw_buffer::Buffer;
use bw_care::{Looks, Tally, live_bytes};
use bw_codec::Place;
use bw_device::{Segment, are_spares};
use bw_history::Intake;
use bw_log::Log;
use bw_making::first_frame;
use bw_page::Leaves;
use bw_ring::Feed;
use bw_terms::{Config, OpenFault, StoreFault};
use std::alloc::Global;
use std::snapshot::Snapshot;

/// How many boxes a log has at most.
const MAX_BOXES: usize = 4096;

// What a store that begins has beside its log and its leaves.
#[derive(Drop)]
pub(crate) struct Ends {
    pub(crate) feeds: Vec<Feed>,
    pub(crate) intake: Intake,
    pub(crate) newest: Vec<Place>,
    pub(crate) making: Buffer,
}

/// Whether a core is opened over these: the numbers are in their ranges, and the boxes are spares
/// with room. It is looked at before memory is.
pub fn are_taken(config: &Config, segments: &[Box<dyn Segment>]) -> bool
    ensures { IsTrue result ↔ AreTaken config.now (map holding segments.now) }
{
    config.is_lawful()
        && segments.len() <= MAX_BOXES
        && are_spares(segments, 24 + u64::from(config.f))
}

// Lanes from which nothing was taken, and the feeds that belong to them.
pub(crate) fn intake_of(alloc: Global, config: &Config) -> Result<(Vec<Feed>, Intake), StoreFault>
    requires { IsConfig config.now }
    ensures feeds { IfOk result (λ p.
        map ring_of_lane p.1.lanes.items ≡ map ring_of_feed p.0.items) }
    ensures unused { IfOk result (λ p. AreFresh config.now p.0.items) }
    ensures history { IfOk result (λ p. p.1.history.items ≡ []) }
    ensures gone { IfOk result (λ p. p.1.history.gone ≡ 0) }
    ensures memory { IfErr result (λ fault. fault ≡ StoreFault.NoMemory) }
{
    Ok(Intake::open(alloc, config.writers, config.places)?)
}

fn parts_of(alloc: Global, config: &Config) -> Result<(Leaves, Ends), StoreFault>
    requires { IsConfig config.now }
    ensures feeds { IfOk result (λ p.
        map ring_of_lane p.1.intake.lanes.items ≡ map ring_of_feed p.1.feeds.items) }
    ensures unused { IfOk result (λ p. AreFresh config.now p.1.feeds.items) }
    ensures history { IfOk result (λ p. p.1.intake.history.items ≡ []) }
    ensures gone { IfOk result (λ p. p.1.intake.history.gone ≡ 0) }
    ensures leaves { IfOk result (λ p.
        p.0 ≡ one_empty config.now.m) }
    ensures newest { IfOk result (λ p. p.1.newest.items ≡ first_place ∷ []) }
    ensures making { IfOk result (λ p. p.1.making ≡ first_making config.now.f) }
    ensures memory { IfErr result (λ fault. fault ≡ StoreFault.NoMemory) }
{
    let (feeds, intake) = intake_of(alloc, config)?;
    let leaves = Leaves::one_empty(alloc, config.m)?;
    let mut newest = Vec::with_capacity(alloc, 1)?;
    newest.push_reserved(Place { frame: 1, index: 0 });
    let making = first_frame(alloc, config.f)?;
    let ends = Ends {
        feeds,
        intake,
        newest,
        making,
    };
    Ok((leaves, ends))
}

impl Core {
    ghost use Rattle.bw_core.specs.Views.{kept_by, kept_beside, noted_of, IsSoundBeside};

    /// A store of one empty page over empty segments, and a feed for each writer, which may go to
    /// another thread. The first page is the first block of frame 1.
    ///
    /// Refused `BadConfig` if a value is out of its range, there are more than 4,096 boxes, or one
    /// of them is not empty or has not room for 24 + `f` bytes to 1,073,741,824; or `NoMemory`. The
    /// boxes then come back as they were.
    pub fn open(
        alloc: Global,
        config: &Config,
        segments: Vec<Box<dyn Segment>>,
    ) -> Result<(Core, Vec<Feed>), OpenFault>
        requires { Unit {0} }
        ensures made { IfOk result (λ r. kept_beside r.0 holding
            ≡ opened (map ring_of_feed r.1.items) config.now.m config.now.f
            (map holding segments.items)) }
        ensures sound { IfOk result (λ r. IsSoundBeside r.0 holding) }
        ensures feeds { IfOk result (λ r. AreFresh config.now r.1.items) }

        ensures noted { IfOk result (λ r. noted_of r.0 ≡ noted_from 1 0) }

        // The limits and the boxes are looked at before memory is.
        ensures bad_config { MatchResult result
            (λ _. AreTaken config.now (map holding segments.items))
            (λ e. IsOpenFault config.now (map holding segments.items) e.cause) }
        ensures back { IfErr result (λ e. e.segments.items ≡ segments.items) }
    {
        if !are_taken(config, &segments) {
            let cause = StoreFault::BadConfig;
            return Err(OpenFault { segments, cause });
        }
        let (leaves, ends) = match parts_of(alloc, config) {
            Ok(parts) => parts,
            Err(cause) => return Err(OpenFault { segments, cause }),
        };
        match Log::new(alloc, segments, config.m, config.f) {
            Ok(log) => Ok(Core::begun(alloc, ends, leaves, log, 0)),
            Err((segments, fault)) => {
                let cause = StoreFault::from(fault);
                Err(OpenFault { segments, cause })
            }
        }
    }

    // A store of these ends over a log: its history begins here, after the frame of this number.
    pub(crate) fn begun(
        alloc: Global,
        ends: Ends,
        leaves: Leaves,
        log: Log,
        before: u64,
    ) -> (Core, Vec<Feed>)
        requires sound { IsSoundLog log holding }
        requires logged { (p : ℕ) → is_evicted_page p leaves ≡ true
            → is_made p ends.making.blocks ≡ false }
        requires gone { ends.intake.history.gone ≡ 0 }
        ensures store { kept_by result.0 holding
            ≡ record (reopened (map ring_of_lane ends.intake.lanes.items) before leaves
            ends.newest.items ends.making (seen log holding))
            { entries = ends.intake.history.items } }
        ensures feeds { result.1 ≡ ends.feeds }
        ensures noted { noted_of result.0 ≡ noted_from (length leaves.leaves)
            (up 0 (bytes_of (seen log holding).live)) }
    {
        let Ends {
            feeds,
            intake,
            newest,
            making,
        } = ends;
        let origin = Origin {
            start: Snapshot::of(&leaves),
            before,
            edge: edge_of(&log),
        };
        let counts = Counts {
            tally: Tally::from(leaves.count(), live_bytes(&log)),
            looks: Looks::new(),
        };
        let store = Core {
            intake,
            origin,
            seals: Seals {
                cuts: Vec::new(alloc),
                durable: 0,
                floor: 0,
            },
            pages: Pages {
                leaves,
                newest,
                making,
            },
            log,
            counts,
        };
        (store, feeds)
    }
}
