//! The boxes of a store: the core's calls; and its end, which tells the readers.

ghost use Rattle.std.specs.Prelude.{◌≡◌, ◌↔◌, ◌⊎◌, ◌++◌, ℕ, true, false, map, MatchOption, OnOk, OnErr, IfOk, IfErr, IsErrAnd};
ghost use Rattle.bw_care.specs.Laws.{shorten_newest};
ghost use Rattle.bw_log.specs.Limits.{IsNotTaken};
ghost use Rattle.bw_log.specs.Reads.{IsNumbered, segment_at};
ghost use Rattle.bw_core.specs.Stopping.{FindsCut, FindsStop, MayCut};
ghost use Rattle.bw_store.specs.Following.{Follows};
ghost use Rattle.bw_store.specs.Kept.{EachCutStands, core_of};
ghost use Rattle.bw_store.specs.Reading.{HasRead, ReadLeaves, with_spare, rolled};

use crate::store::Store;
use bw_core::StoreFault;
use bw_device::Segment;
use std::sync::Wait;

impl Store {
    ghost use Rattle.bw_store.specs.Going.{GoesOn};
    ghost use Rattle.bw_store.specs.Views.{kept_by, kept_beside, noted_of, IsSound, IsSoundBeside};

    /// A further spare, which goes last. A box that is not empty or has not the room that `open`
    /// asks, or one above 4,096, comes back with `BadConfig`. Any box comes back with `NoMemory` if
    /// a growth is refused. The store is then as it was.
    pub fn add_segment(
        &mut self,
        one: Box<dyn Segment>,
    ) -> Result<(), (Box<dyn Segment>, StoreFault)>
        requires { IsSoundBeside self.old holding }
        ensures sound { IsSoundBeside self.new holding }
        ensures added { OnOk result
            (kept_beside self.new holding
            ≡ with_spare (kept_beside self.old holding) (holding one)) }

        ensures bad_config { IsErrAnd result (λ e. e.1 ≡ StoreFault.BadConfig)
            ↔ IsNotTaken (kept_beside self.old holding).log (holding one) }
        ensures memory { IfErr result (λ e.
            (e.1 ≡ StoreFault.BadConfig) ⊎ (e.1 ≡ StoreFault.NoMemory)) }
        ensures back { IfErr result (λ e. e.0 ≡ one) }
        ensures unchanged { OnErr result
            (kept_beside self.new holding ≡ kept_beside self.old holding) }

        ensures follows { Follows (kept_beside self.old holding) (kept_beside self.new holding) }
        ensures noted { noted_of self.new ≡ noted_of self.old }
    {
        self.core.add_segment(one)
    }

    /// Closes the current segment, if any: the next append begins another. No memory is taken.
    pub fn roll(&mut self)
        requires { IsSound self.old holding }
        ensures goes { GoesOn self.old self.new holding }
        ensures closed { kept_by self.new holding
            ≡ rolled (kept_by self.old holding) }
    {
        self.core.roll();
    }

    /// Appends the bytes of the live segment with this number to a `Vec`; answers `false` if no
    /// live segment has it. A refusal leaves the `Vec` as it was. Refused `NoMemory`. Refused
    /// `Device` if the read failed: the next one may not. Refused `Spent` if one more failure of
    /// that segment could not be counted.
    pub fn dump(&mut self, segment: u64, out: &mut Vec<u8>) -> Result<bool, StoreFault>
        requires { IsSound self.old holding }
        ensures found { IfOk result (λ found.
            MatchOption (segment_at (kept_by self.old holding).log
            segment) ((found ≡ false) × (out.new.items ≡ out.old.items))
            (λ h. (found ≡ true) × (out.new.items ≡ out.old.items ++ h.bytes))) }
        ensures goes { GoesOn self.old self.new holding }
        ensures read { HasRead (kept_by self.old holding)
            (kept_by self.new holding) }

        ensures unchanged { OnErr result (out.new.items ≡ out.old.items) }
        ensures leaves { ReadLeaves (IsNumbered
            (kept_by self.old holding).log segment)
            (kept_by self.old holding) result
            (kept_by self.new holding) }
    {
        self.core.dump(segment, out)
    }

    /// All boxes, as they are: the live ones in the order of their numbers, and the spares in
    /// theirs. Nothing is flushed. It may wait for readers; from then on they are refused. No
    /// memory is taken.
    ///
    /// If an append failed, `recover` is the way on, and the only one: the box may hold any
    /// beginning of the piece, also all of it. It finds the pages up to the last durable cut or, if
    /// that piece was a whole frame, up to the cut of this frame. A stop in the middle of any call
    /// leaves no other boxes, since nothing is appended after a failed append. If none failed, the
    /// newest segment may even be shortened, as a file is by a loss of power: what is left shows
    /// the pages up to a cut.
    pub fn shut<R: Wait>(self, rt: &R) -> (Vec<Box<dyn Segment>>, Vec<Box<dyn Segment>>)
        requires { IsSoundBeside self holding }
        ensures live { map holding result.0.items ≡ (kept_beside self holding).log.live }
        ensures spares { map holding result.1.items ≡ (kept_beside self holding).log.spares }

        // What the boxes hold up to each durable cut from the floor on are the pages of that cut.
        ensures each_cut { EachCutStands (kept_beside self holding) }

        // After a stop, and after a cut of the newest segment, recovery finds the pages of a cut.
        ensures stops { (kept_beside self holding).log.is_failed ≡ true
            → FindsStop (core_of (kept_beside self holding))
            (map holding result.0.items ++ map holding result.1.items) }
        ensures cuts { (kept_beside self holding).log.is_failed ≡ false
            → (n : ℕ) → MayCut (core_of (kept_beside self holding)) n
            → FindsCut (core_of (kept_beside self holding))
            (shorten_newest n (map holding result.0.items) ++ map holding result.1.items) }
    {
        let Store {
            core,
            versions,
            publications: _,
        } = self;
        versions.shut(rt);
        core.shut()
    }
}
