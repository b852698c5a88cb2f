//! A store is opened again over what was recovered.

ghost use Rattle.std.specs.Prelude.{◌≡◌, ◌≤◌, List, [], length, map, IfOk, IfErr, MatchResult};
ghost use Rattle.bw_device.specs.Holding.{Holding};
ghost use Rattle.bw_ring.specs.Ends.{ring_of_feed};
ghost use Rattle.bw_care.specs.Views.{seen};
ghost use Rattle.bw_care.specs.Tallies.{bytes_of, up};
ghost use Rattle.bw_core.specs.Counting.{noted_from};
ghost use Rattle.bw_core.specs.Opened.{AreUnused};
ghost use Rattle.bw_core.specs.Reopened.{Begins};
ghost use Rattle.bw_store.specs.Kept.{core_of};
ghost use Rattle.bw_store.specs.Handing.{unread_of, IsReadCause};
ghost use Rattle.bw_store.specs.Opened.{in_memory, reopened, AreEnds, IsReopenFault};
ghost use Rattle.bw_store.specs.Showing.{AreUnseen};

use crate::config::Config;
use crate::publish::Publications;
use crate::store::Store;
use bw_care::{RecoverCause, Recovered, WarmFault};
use bw_core::{Core, ReopenFault, StoreFault};
use bw_page::{Leaves, Start};
use bw_ring::Feed;
use bw_versions::Versions;
use std::alloc::{AllocError, Global};
use std::sync::Wait;

// What readers of a store that is opened again see: nothing yet, and these leaves from the first
// publication.
fn unseen<R: Wait>(
    rt: &R,
    alloc: Global,
    readers: usize,
    leaves: &Leaves,
) -> Result<Versions, AllocError>
    requires readers { (1 ≤ readers) × (readers ≤ 64) }
    requires here { leaves.now.evicted ≡ [] }
    ensures { IfOk result (λ v. AreUnseen leaves.now readers v) }
{
    Versions::open_at(rt, alloc, readers, Start::copy_of(leaves)?)
}

// The cause that a refused read of a page is.
fn unread(cause: RecoverCause) -> StoreFault
    requires { IsReadCause cause }
    ensures { result ≡ unread_of cause }
{
    match cause {
        RecoverCause::NoMemory => StoreFault::NoMemory,
        RecoverCause::Device { lease } => StoreFault::Device { lease },
        RecoverCause::Spent => StoreFault::Spent,
        _ => unreachable!(),
    }
}

impl Store {
    ghost use Rattle.bw_care.specs.Found.{IsFoundIn, IsRecovered};
    ghost use Rattle.bw_store.specs.Handing.{IsHandedBack};
    ghost use Rattle.bw_store.specs.Views.{kept_by, noted_of, IsSound};

    /// A store that goes on from what was recovered, and a feed for each of `writers` writers, 1 to
    /// 64, with rings of `places` places, 1 to 4,096; `readers` is 1 to 64. Its pages are the
    /// recovered ones, all of them in memory, its history is empty, and its next frame is the one
    /// after the last: it begins over the boxes that recovery was given, as a core does.
    ///
    /// Refused `BadConfig` if a number is out of its range: then nothing is read. Refused
    /// `NoMemory`. Refused `Device` if the segment with this lease failed and counts it, or `Spent`
    /// if no more failure of a segment that has to be read could be counted. What was recovered
    /// then comes back, and may have pages in memory that it had not. It costs a read of each page,
    /// a copy of it, which is what readers will see, and a look at its line.
    pub fn reopen<R: Wait>(
        rt: &R,
        alloc: Global,
        recovered: Recovered,
        writers: usize,
        places: usize,
        readers: usize,
    ) -> Result<(Store, Vec<Feed>), ReopenFault>
        requires { IsRecovered (λ b. holding (b.vtable, b.value)) recovered }
        ensures made { IfOk result (λ r. kept_by r.0 holding
            ≡ reopened (map ring_of_feed r.1.items) recovered.last (in_memory recovered.leaves)
            (kept_by r.0 holding).newest (kept_by r.0 holding).making
            (seen recovered.log holding) (kept_by r.0 holding).versions) }
        ensures begins { IfOk result (λ r. (held : List Holding)
            → IsFoundIn (λ b. holding (b.vtable, b.value)) held recovered
            → Begins held (core_of (kept_by r.0 holding))) }
        ensures empty { IfOk result (λ r. (kept_by r.0 holding).making.blocks ≡ []) }
        ensures sound { IfOk result (λ r. IsSound r.0 holding) }
        ensures feeds { IfOk result (λ r. AreUnused writers places r.1.items) }
        ensures unseen { IfOk result (λ r. AreUnseen (in_memory recovered.leaves) readers
            (kept_by r.0 holding).versions) }
        ensures noted { IfOk result (λ r. noted_of r.0
            ≡ noted_from (length recovered.leaves.leaves)
            (up 0 (bytes_of (seen recovered.log holding).live))) }

        ensures bad_config { MatchResult result (λ _. AreEnds writers places readers)
            (λ e. IsReopenFault writers places readers e.cause) }
        ensures back { IfErr result (λ e.
            IsHandedBack (λ b. holding (b.vtable, b.value)) e.cause recovered e.recovered) }
        ensures still { IfErr result (λ e.
            IsRecovered (λ b. holding (b.vtable, b.value)) e.recovered) }
    {
        let config = Config {
            writers,
            places,
            readers,
            m: recovered.leaves.limit(),
            f: recovered.log.limit(),
        };
        if !config.are_readers() || !config.without_readers().are_writers() {
            let cause = StoreFault::BadConfig;
            return Err(ReopenFault { recovered, cause });
        }
        match recovered.warm() {
            Ok(recovered) => Store::reopen_warm(rt, alloc, recovered, writers, places, readers),
            Err(fault) => {
                let WarmFault { recovered, cause } = fault;
                let cause = unread(cause);
                Err(ReopenFault { recovered, cause })
            }
        }
    }

    // A store over what was recovered, with each page in memory, if no number is out of its range.
    fn reopen_warm<R: Wait>(
        rt: &R,
        alloc: Global,
        recovered: Recovered,
        writers: usize,
        places: usize,
        readers: usize,
    ) -> Result<(Store, Vec<Feed>), ReopenFault>
        requires recovered { IsRecovered (λ b. holding (b.vtable, b.value)) recovered }
        requires here { recovered.leaves.evicted ≡ [] }
        requires ends { AreEnds writers places readers }
        ensures made { IfOk result (λ r. kept_by r.0 holding
            ≡ reopened (map ring_of_feed r.1.items) recovered.last recovered.leaves
            (kept_by r.0 holding).newest (kept_by r.0 holding).making
            (seen recovered.log holding) (kept_by r.0 holding).versions) }
        ensures begins { IfOk result (λ r. (held : List Holding)
            → IsFoundIn (λ b. holding (b.vtable, b.value)) held recovered
            → Begins held (core_of (kept_by r.0 holding))) }
        ensures empty { IfOk result (λ r. (kept_by r.0 holding).making.blocks ≡ []) }
        ensures sound { IfOk result (λ r. IsSound r.0 holding) }
        ensures feeds { IfOk result (λ r. AreUnused writers places r.1.items) }
        ensures unseen { IfOk result (λ r. AreUnseen recovered.leaves readers
            (kept_by r.0 holding).versions) }
        ensures noted { IfOk result (λ r. noted_of r.0
            ≡ noted_from (length recovered.leaves.leaves)
            (up 0 (bytes_of (seen recovered.log holding).live))) }

        ensures memory { IfErr result (λ e. e.cause ≡ StoreFault.NoMemory) }
        ensures back { IfErr result (λ e. e.recovered ≡ recovered) }
    {
        let Ok(versions) = unseen(rt, alloc, readers, &recovered.leaves) else {
            let cause = StoreFault::NoMemory;
            return Err(ReopenFault { recovered, cause });
        };
        match Core::reopen(alloc, recovered, writers, places) {
            Ok((core, feeds)) => {
                let publications = Publications::none();
                let store = Store {
                    core,
                    versions,
                    publications,
                };
                Ok((store, feeds))
            }
            Err(fault) => {
                versions.shut(rt);
                Err(fault)
            }
        }
    }
}
