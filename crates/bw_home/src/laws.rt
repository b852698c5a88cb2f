//! What holds of a home that is a map, over its lives: each function's contract is a law, and there
//! is nothing to run.

ghost use Rattle.std.specs.Prelude.{[]};
ghost use Rattle.bw_page.specs.Leaves.{plain};
ghost use Rattle.bw_home.specs.Beginning.{IsBegun};
ghost use Rattle.bw_home.specs.Laws.{ABegunHomeBegins, ABegunHomeIsAMap, ABegunHomeIsFound, AMapGoesOn, AStopLeavesACut};
ghost use Rattle.bw_home.specs.Maps.{maps_of, Keeps};
ghost use Rattle.bw_home.specs.Ready.{kept_in};

use crate::home::Home;

/// Whatever a stop leaves of a home with one writer is one of its cuts: the map that is kept, or
/// one that a later group made, and never a part of a group.
pub fn a_stop_leaves_a_cut()
    ensures { AStopLeavesACut }
{}

/// A store that begins over the segments of a home with one writer has one of that home's cuts.
pub fn a_map_goes_on()
    ensures { AMapGoesOn }
{}

/// A home that is begun has one map, which is all that was put, what is looked at, and what is
/// kept: a stop leaves this and nothing else.
pub fn a_begun_home_keeps_its_map(home: &Home)
    requires { IsBegun home.now holding }
    ensures { Keeps (plain (kept_in home.now holding).start []) (maps_of home.now holding) }
{}

/// A home with one writer that is begun is a map from the start: no `take_all` or `settle` has to
/// make sure of it.
pub fn a_begun_home_is_a_map()
    ensures { ABegunHomeIsAMap }
{}

/// The store of a home that is begun is a machine that has just begun: with its start, and nothing
/// of it taken, durable or written.
pub fn a_begun_home_begins()
    ensures { ABegunHomeBegins }
{}

/// What recovery finds in the segments of a home that is begun is what the home begins with, or it
/// finds no store in those of a new one.
pub fn a_begun_home_is_found()
    ensures { ABegunHomeIsFound }
{}
