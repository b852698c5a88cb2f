//! A store begins over boxes: a new one, or the one that they hold. A folder that has only the
//! beginning of a first frame has no store: that beginning is cleared, and the store begins anew.

ghost use Rattle.std.specs.Prelude.{◌≡◌, false, true, map, IfOk};
ghost use Rattle.bw_ring.specs.Ends.{ring_of_feed};
ghost use Rattle.bw_core.specs.Opened.{opened, AreUnused};
ghost use Rattle.bw_core.specs.Reopened.{Begins};
ghost use Rattle.bw_core.specs.Views.{kept_beside};
ghost use Rattle.bw_home.specs.Beginning.{IsBegunBeside};
ghost use Rattle.bw_home.specs.Ready.{IsReadyBeside};

use crate::home::Home;
use crate::options::Options;
use bw_device::Segment;
use bw_site::{Found, NotHeld, Site, System, held_in};

/// A new store if all boxes are new, with what was found before; and else the one that they hold.
/// If they have only the beginning of a first frame, that is cleared. Their files are settled once
/// recovery took them, or there was nothing to take: nothing is written before.
pub(crate) fn begin<R: System>(
    rt: &R,
    options: &Options,
    boxes: Vec<Box<dyn Segment>>,
    are_new: bool,
    mut site: Site,
    found: Option<Found>,
) -> Result<Home, NotHeld>
    requires { Unit {0} }
    ensures ready { IfOk result (λ home. IsReadyBeside home holding) }
    ensures made { are_new ≡ true → IfOk result (λ home. kept_beside home.store holding
        ≡ opened (map ring_of_feed home.feeds.items) options.now.pairs_a_page
        options.now.frame_bytes (map holding boxes.items)) }
    ensures begins { are_new ≡ false → IfOk result (λ home.
        Begins (map holding boxes.items) (kept_beside home.store holding)) }
    ensures feeds { IfOk result (λ home. AreUnused options.now.writers
        options.now.queue_groups home.feeds.items) }
    ensures begun { IfOk result (λ home. IsBegunBeside home holding) }
{
    if are_new {
        site.settle(rt)?;
        return Ok(Home::open(rt, options, boxes, site, found)?);
    }
    let found = held_in(rt, &mut site, boxes)?;
    Ok(Home::reopen(rt, options, found, site)?)
}
