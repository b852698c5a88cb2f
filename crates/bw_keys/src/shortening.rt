//! The log of a new store gets short after an import. It has records that were joined to pages, and
//! pages that were split. Each segment in turn is given up, so that only whole pages are left, as
//! the next opening wants them.

ghost use Rattle.std.specs.Prelude.{◌≡◌};
ghost use Rattle.bw_home.specs.Ready.{IsReady};

use crate::tending::Tending;
use bw_home::{Home, HomeFault, System};

impl Tending {
    /// How many segments are given up in turn so that the log gets short: all of a store that was
    /// made by this opening, if there is more than one, and an eighth of the closed ones is waste;
    /// else none.
    pub(crate) fn to_shorten(&self, home: &Home) -> u32
        requires { IsReady home.now holding }
    {
        let live = home.store.live();
        if home.found().is_some() || live < 2 || !self.measure.is_eighth_waste(home) {
            return 0;
        }
        live
    }

    /// Gives up the oldest segment, or makes a further one if there is too little room for that;
    /// `false` if there is no way, or only one segment is left.
    pub(crate) fn shorten<R: System>(&mut self, rt: &R, home: &mut Home) -> Result<bool, HomeFault>
        requires { IsReady home.old holding }
        ensures ready { IsReady home.new holding }
        ensures feeds { home.new.feeds ≡ home.old.feeds }
    {
        if home.store.live() < 2 {
            return Ok(false);
        }
        if self.may_clean(home) {
            return self.clean_for_room(rt, home);
        }
        self.add_segment_if_allowed(rt, home)
    }
}
