//! A look at both ends of all rings.

ghost use Rattle.std.specs.Prelude.{◌≡◌, ◌<◌, [], length, map, vec_len, slice_set, slice_index_or};
ghost use Rattle.bw_ring.specs.Ends.{accepted, taken, given, ring_of_feed, ring_of_lane, IsFeedOf};
ghost use Rattle.bw_history.specs.Beside.{KeepsRings};

use bw_ring::{Feed, Lane};

/// A look at both ends of all rings: what was accepted is then what was taken and what the lanes
/// know of.
pub(crate) fn look_at_all(lanes: &mut Vec<Lane>, feeds: &mut Vec<Feed>)
    requires { map ring_of_feed feeds.old.items ≡ map ring_of_lane lanes.old.items }
    ensures kept { KeepsRings lanes.old.items feeds.old.items lanes.new.items feeds.new.items }
    ensures len { vec_len lanes.new ≡ vec_len lanes.old }
    ensures whole { map given lanes.new.items ≡ map accepted feeds.old.items }
{
    let count = lanes.as_slice().len();
    'rings: for at in 0..count {
        look_at(lanes, feeds, at);
    }
}

// A look at both ends of one ring.
fn look_at(lanes: &mut Vec<Lane>, feeds: &mut Vec<Feed>, at: usize)
    requires ends { map ring_of_feed feeds.old.items ≡ map ring_of_lane lanes.old.items }
    requires inside { at < length lanes.old.items }
    ensures kept { KeepsRings lanes.old.items feeds.old.items lanes.new.items feeds.new.items }
    ensures len { vec_len lanes.new ≡ vec_len lanes.old }
    ensures given { map given lanes.new.items
        ≡ slice_set (map given lanes.old.items) at
        (slice_index_or (map accepted feeds.old.items) at []) }
{
    let _ = lanes.as_slice().len(); // For the proof.
    let _ = feeds.as_slice().len(); // For the proof.
    look_one(&mut lanes[at], &mut feeds[at]);
}

fn look_one(lane: &mut Lane, feed: &mut Feed)
    requires { IsFeedOf feed.old lane.old }
    ensures ring { ring_of_lane lane.new ≡ ring_of_lane lane.old }
    ensures taken { taken lane.new ≡ taken lane.old }
    ensures feed { ring_of_feed feed.new ≡ ring_of_feed feed.old }
    ensures accepted { accepted feed.new ≡ accepted feed.old }
    ensures given { given lane.new ≡ accepted feed.old }
{
    let _ = lane.rest_beside(feed);
}
