//! A store is opened again over what was recovered.
//!
//! The history begins empty, over the pages that were found: what was durable before is in them,
//! and which writer put it is not known any more. All room that the store needs is made before the
//! recovered log is taken apart: a refusal hands it back whole, and whoever was refused memory may
//! try again.

ghost use Rattle.std.specs.Prelude.{◌≡◌, ◌≤◌, ◌<◌, ◌-◌, ◌^◌, [], None, ℕ, List, map, length, false, slice_get, IfOk, IfErr, IfSome, MatchResult};
ghost use Rattle.bw_log.specs.Contents.{counted};
ghost use Rattle.bw_log.specs.Places.{place_of};
ghost use Rattle.bw_ring.specs.Ends.{ring_of_feed, ring_of_lane};
ghost use Rattle.bw_care.specs.Views.{seen, IsSound as IsSoundLog};
ghost use Rattle.bw_core.specs.Opened.{AreFresh, AreUnused};
ghost use Rattle.bw_terms.specs.Ranges.{AreEnds, IsConfig};
ghost use Rattle.bw_care.specs.Tallies.{bytes_of, up};
ghost use Rattle.bw_core.specs.Counting.{noted_from};
ghost use Rattle.bw_core.specs.Reopened.{reopened, IsReopenFault};

use crate::open::{Ends, intake_of};
use crate::store::Core;
use bw_care::{Recovered, blank_places, renew};
use bw_log::Log;
use bw_making::next_buffer;
use bw_ring::Feed;
use bw_terms::{Config, StoreFault};
use std::alloc::Global;
use std::fmt::{self, Debug, Formatter};
use thiserror::Error;

/// Why a store was not opened again, with what was recovered.
#[derive(Drop, Error)]
#[error("{cause}")]
pub struct ReopenFault {
    pub recovered: Recovered,
    pub cause: StoreFault,
}

impl Debug for ReopenFault {
    fn fmt<W: fmt::Write>(&self, f: &mut Formatter<W>) -> fmt::Result {
        write!(f, "ReopenFault({:?})", self.cause)
    }
}

fn ends_of(alloc: Global, config: &Config, log: &Log, pages: usize) -> Result<Ends, StoreFault>
    requires config { IsConfig config.now }
    requires sound { IsSoundLog log.now holding }
    requires next { IfSome (seen log.now holding).next (λ n. 1 ≤ n) }
    requires few { pages < 2 ^ 32 }
    requires there { (p : ℕ) → 1 ≤ p → p ≤ pages
        → place_of p (counted (seen log.now holding)) ≡ None → ⊥ }
    ensures feeds { IfOk result (λ e.
        map ring_of_lane e.intake.lanes.items ≡ map ring_of_feed e.feeds.items) }
    ensures unused { IfOk result (λ e. AreFresh config.now e.feeds.items) }
    ensures history { IfOk result (λ e. e.intake.history.items ≡ []) }
    ensures gone { IfOk result (λ e. e.intake.history.gone ≡ 0) }
    ensures count { IfOk result (λ e. length e.newest.items ≡ pages) }
    ensures each { IfOk result (λ e. (p : ℕ) → 1 ≤ p → p ≤ pages
        → slice_get e.newest.items (p - 1) ≡ place_of p (counted (seen log.now holding))) }
    ensures limit { IfOk result (λ e. e.making.limit ≡ config.now.f) }
    ensures empty { IfOk result (λ e. e.making.blocks ≡ []) }
    ensures unsealed { IfOk result (λ e. e.making.is_sealed ≡ false) }
    ensures number { IfOk result (λ e.
        IfSome (seen log.now holding).next (λ n. e.making.frame ≡ n)) }
    ensures memory { IfErr result (λ fault. fault ≡ StoreFault.NoMemory) }
{
    let (feeds, intake) = intake_of(alloc, config)?;
    let mut newest = blank_places(alloc, pages)?;
    renew(&mut newest, log);
    let making = next_buffer(alloc, log.next_frame(), config.f)?;
    Ok(Ends {
        feeds,
        intake,
        newest,
        making,
    })
}

impl Core {
    ghost use Rattle.bw_care.specs.Found.{IsFoundIn, IsRecovered};
    ghost use Rattle.bw_device.specs.Holding.{Holding};
    ghost use Rattle.bw_core.specs.Reopened.{Begins};
    ghost use Rattle.bw_core.specs.Views.{kept_by, noted_of, IsSound};

    /// A store that goes on from what was recovered, and a feed for each of `writers` writers, 1 to
    /// 64, with rings of `places` places, 1 to 4,096. Its pages are the recovered leaves, its
    /// history is empty, and its next frame is the one after the last. So it begins with what
    /// recovery finds in whatever boxes these were recovered from (`begins`).
    ///
    /// Refused `BadConfig` if a number is out of its range, or `NoMemory`. What was recovered then
    /// comes back. It costs a look at each page's line.
    pub fn reopen(
        alloc: Global,
        recovered: Recovered,
        writers: usize,
        places: usize,
    ) -> Result<(Core, Vec<Feed>), ReopenFault>
        requires { IsRecovered (λ b. holding (b.vtable, b.value)) recovered }
        ensures made { IfOk result (λ r. kept_by r.0 holding
            ≡ reopened (map ring_of_feed r.1.items) recovered.last recovered.leaves
            (kept_by r.0 holding).newest (kept_by r.0 holding).making
            (seen recovered.log holding)) }
        ensures begins { IfOk result (λ r. (held : List Holding)
            → IsFoundIn (λ b. holding (b.vtable, b.value)) held recovered
            → Begins held (kept_by r.0 holding)) }
        ensures empty { IfOk result (λ r. (kept_by r.0 holding).making.blocks ≡ []) }
        ensures sound { IfOk result (λ r. IsSound r.0 holding) }
        ensures feeds { IfOk result (λ r. AreUnused writers places r.1.items) }
        ensures noted { IfOk result (λ r. noted_of r.0
            ≡ noted_from (length recovered.leaves.leaves)
            (up 0 (bytes_of (seen recovered.log holding).live))) }

        ensures bad_config { MatchResult result (λ _. AreEnds writers places)
            (λ e. IsReopenFault writers places e.cause) }
        ensures back { IfErr result (λ e. e.recovered ≡ recovered) }
    {
        let config = Config {
            writers,
            places,
            m: recovered.leaves.limit(),
            f: recovered.log.limit(),
        };
        if !config.is_lawful() {
            let cause = StoreFault::BadConfig;
            return Err(ReopenFault { recovered, cause });
        }
        let pages = recovered.leaves.count() as usize;
        match ends_of(alloc, &config, &recovered.log, pages) {
            Ok(ends) => {
                let Recovered {
                    log,
                    leaves,
                    last,
                    ..
                } = recovered;
                Ok(Core::begun(alloc, ends, leaves, log, last))
            }
            Err(cause) => Err(ReopenFault { recovered, cause }),
        }
    }
}
