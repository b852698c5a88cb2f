//! Room for a call that writes many groups, and looks at the spares only before the first of them.

ghost use Rattle.std.specs.Prelude.{◌≡◌};
ghost use Rattle.bw_home.specs.Ready.{IsReady};

use crate::full::{Admission, Full, is_asked_again};
use crate::tending::Tending;
use bw_home::{Home, HomeFault, System};

impl Tending {
    /// How many spares there have to be so that blocks with so many bytes surely find room, and as
    /// many are left after them as are kept.
    fn wanted(&mut self, home: &Home, bytes: u64) -> u64
        requires { IsReady home.now holding }
    {
        let _ = self.has_spares(home);
        let wanted = self.measure.spares_for(self.rest(home), bytes);
        let kept = u64::from(self.measure.kept(home, self.most));
        kept.saturating_add(wanted)
    }

    /// Whether there are so many.
    pub fn has_room(&mut self, home: &Home, bytes: u64) -> bool
        requires { IsReady home.now holding }
    {
        u64::from(home.store.spares()) >= self.wanted(home, bytes)
    }

    /// Whether so many bytes of deletes find room in a log in which no room can be made, beside
    /// what a cleaning wants.
    fn has_room_to_delete(&mut self, home: &mut Home, bytes: u64) -> Result<bool, HomeFault>
        requires { IsReady home.old holding }
        ensures ready { IsReady home.new holding }
        ensures feeds { home.new.feeds ≡ home.old.feeds }
    {
        let Some(full) = self.full else {
            return Ok(false);
        };
        let left = self.left_to_delete(home, full)?;
        let is_enough = bytes <= left;
        self.full = Some(Full {
            taken: full.taken,
            left: Some(if is_enough {
                left.saturating_sub(bytes)
            } else {
                left
            }),
        });
        Ok(is_enough)
    }

    /// Whether a call that only deletes may be done in a log in which no room can be made.
    fn admits_delete(&mut self, home: &mut Home, bytes: u64) -> Result<Admission, HomeFault>
        requires { IsReady home.old holding }
        ensures ready { IsReady home.new holding }
        ensures feeds { home.new.feeds ≡ home.old.feeds }
    {
        if self.has_room_to_delete(home, bytes)? {
            Ok(Admission::Yes)
        } else {
            Ok(Admission::No)
        }
    }

    /// Whether it is tried to have so many spares: there may be so many, and a log in which no room
    /// could be made is not asked at each call.
    fn tries(&self, home: &Home, wanted: u64) -> bool {
        let is_allowed = wanted < u64::from(self.most);
        match self.full {
            Some(full) => is_allowed && is_asked_again(home, full),
            None => is_allowed,
        }
    }

    /// Makes a spare on the way to so many, if that is tried; `false` if none was made.
    fn make_towards<R: System>(
        &mut self,
        rt: &R,
        home: &mut Home,
        wanted: u64,
    ) -> Result<bool, HomeFault>
        requires { IsReady home.old holding }
        ensures ready { IsReady home.new holding }
        ensures feeds { home.new.feeds ≡ home.old.feeds }
    {
        if !self.tries(home, wanted) {
            return Ok(false);
        }
        self.make_some(rt, home)
    }

    /// Whether a call may be done that writes blocks with so many bytes at most. If there is too
    /// little room for them, a spare is made; then the same is asked again once that was added. If
    /// none can be made, a call that only deletes may be done as long as there is room for it
    /// beside what a cleaning wants, and no other.
    pub fn reserve<R: System>(
        &mut self,
        rt: &R,
        home: &mut Home,
        bytes: u64,
        deletes: bool,
    ) -> Result<Admission, HomeFault>
        requires { IsReady home.old holding }
        ensures ready { IsReady home.new holding }
        ensures feeds { home.new.feeds ≡ home.old.feeds }
    {
        let wanted = self.wanted(home, bytes);
        if u64::from(home.store.spares()) >= wanted {
            return Ok(Admission::Yes);
        }
        if self.make_towards(rt, home, wanted)? {
            return Ok(Admission::Room);
        }
        if deletes {
            return self.admits_delete(home, bytes);
        }
        Ok(Admission::No)
    }
}
