//! A store is opened over empty segments.

ghost use Rattle.std.specs.Prelude.{◌≡◌, ◌≤◌, map, IfOk, IfErr, MatchResult};
ghost use Rattle.bw_ring.specs.Ends.{ring_of_feed};
ghost use Rattle.bw_core.specs.Counting.{noted_from};
ghost use Rattle.bw_core.specs.Opened.{one_empty};
ghost use Rattle.bw_store.specs.Opened.{opened, AreFresh, AreTaken, IsOpenFault};
ghost use Rattle.bw_store.specs.Showing.{AreUnseen};

use crate::config::Config;
use crate::publish::Publications;
use crate::store::Store;
use bw_core::{Core, OpenFault, StoreFault, are_taken};
use bw_device::Segment;
use bw_page::Leaves;
use bw_ring::Feed;
use bw_versions::Versions;
use std::alloc::{AllocError, Global};
use std::sync::Wait;

// What readers of an opened store see: nothing yet, and one empty page from the first publication.
fn unseen<R: Wait>(rt: &R, alloc: Global, m: u16, readers: usize) -> Result<Versions, AllocError>
    requires readers { (1 ≤ readers) × (readers ≤ 64) }
    requires limit { (4 ≤ m) × (m ≤ 32) }
    ensures { IfOk result (λ v. AreUnseen (one_empty m) readers v) }
{
    Versions::open(rt, alloc, readers, Leaves::one_empty(alloc, m)?)
}

impl Store {
    ghost use Rattle.bw_store.specs.Views.{kept_beside, noted_of, IsSoundBeside};

    /// A store of one empty page over empty segments, and a feed for each writer, which may go to
    /// another thread. The first page is the first block of frame 1.
    ///
    /// Refused `BadConfig` if a value is out of its range, there are more than 4,096 boxes, or one
    /// of them is not empty or has not room for 24 + `f` bytes to 1,073,741,824; or `NoMemory`. The
    /// boxes then come back as they were.
    pub fn open<R: Wait>(
        rt: &R,
        alloc: Global,
        config: &Config,
        segments: Vec<Box<dyn Segment>>,
    ) -> Result<(Store, Vec<Feed>), OpenFault>
        requires { Unit {0} }
        ensures made { IfOk result (λ r. kept_beside r.0 holding
            ≡ opened (map ring_of_feed r.1.items) config.now.m config.now.f
            (map holding segments.items) (kept_beside r.0 holding).versions) }
        ensures sound { IfOk result (λ r. IsSoundBeside r.0 holding) }
        ensures feeds { IfOk result (λ r. AreFresh config.now r.1.items) }
        ensures unseen { IfOk result (λ r. AreUnseen (one_empty config.now.m) config.now.readers
            (kept_beside r.0 holding).versions) }

        ensures noted { IfOk result (λ r. noted_of r.0 ≡ noted_from 1 0) }

        // The limits and the boxes are looked at before memory is.
        ensures bad_config { MatchResult result
            (λ _. AreTaken config.now (map holding segments.items))
            (λ e. IsOpenFault config.now (map holding segments.items) e.cause) }
        ensures back { IfErr result (λ e. e.segments.items ≡ segments.items) }
    {
        let limits = config.without_readers();
        if !config.are_readers() || !are_taken(&limits, &segments) {
            let cause = StoreFault::BadConfig;
            return Err(OpenFault { segments, cause });
        }
        let Ok(versions) = unseen(rt, alloc, config.m, config.readers) else {
            let cause = StoreFault::NoMemory;
            return Err(OpenFault { segments, cause });
        };
        match Core::open(alloc, &limits, segments) {
            Ok((core, feeds)) => {
                let publications = Publications::none();
                let store = Store {
                    core,
                    versions,
                    publications,
                };
                Ok((store, feeds))
            }
            Err(fault) => {
                versions.shut(rt);
                Err(fault)
            }
        }
    }
}
