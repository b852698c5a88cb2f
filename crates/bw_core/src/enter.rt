//! Records are entered in the history and in the frame in the making.
//!
//! Five lists change for one record: history, page, last places, frame and ring. Were the third
//! refused memory after two had changed, the store would have to take them back, and each such way
//! back would be code that hardly ever runs. So nothing is undone here: every list grows first,
//! unused, and the page, which may be refused all the same, changes before the others. What comes
//! after it cannot be refused, and its types say so: it answers nothing.

ghost use Rattle.std.specs.Prelude.{◌≡◌, ◌≤◌, ◌-◌, ◌∷◌, [], Some, length, slice_get, OnOk, OnErr, IfErr};
ghost use Rattle.bw_record.specs.Record.{key_of};
ghost use Rattle.bw_page.specs.Aim.{IsFound};
ghost use Rattle.bw_page.specs.Leaves.{result_of};
ghost use Rattle.bw_buffer.specs.Filling.{frame_of, size_of, with_all};
ghost use Rattle.bw_making.specs.Adding.{blocks_for, here_for};
ghost use Rattle.bw_making.specs.Filing.{FitsDelta};
ghost use Rattle.bw_core.specs.Fitting.{back_for};
ghost use Rattle.bw_core.specs.Taken.{alone, taken};
ghost use Rattle.bw_core.specs.Taking.{IsWanting};

use crate::store::Core;
use bw_codec::{Block, Place, Record};
use bw_making::{apply_entry, apply_found, file, file_delta};
use bw_terms::StoreFault;

impl Core {
    ghost use Rattle.bw_core.specs.Takes.{Comes, HasFrame, IsAt, TakesGroup};
    ghost use Rattle.bw_core.specs.Views.{kept_by};

    // Enters a record whose blocks fit the frame in the making: one that splits its page.
    pub(crate) fn enter(
        &mut self,
        lane: usize,
        item: &Record,
        page: u32,
        back: Place,
        blocks: &[Block],
    ) -> Result<(), StoreFault>
        requires comes { Comes lane (item.now ∷ []) self.old holding }
        requires at { IsAt page item.now self.old }
        requires frame { HasFrame self.old holding }
        requires back { slice_get self.old.pages.newest.items (page - 1) ≡ Some back }
        requires blocks { blocks.now
            ≡ blocks_for self.old.pages.leaves.m self.old.pages.leaves.leaves back
            (here_for (frame_of self.old.pages.making) page) item.now }
        requires fits { size_of (with_all self.old.pages.making blocks.now)
            ≤ self.old.pages.making.limit }
        ensures takes { TakesGroup lane self.old result self.new holding }
        ensures ok { OnOk result (kept_by self.new holding
            ≡ taken (kept_by self.old holding) lane (alone item.now) back) }
        ensures unchanged { OnErr result (kept_by self.new holding ≡ kept_by self.old holding) }
        ensures refused { IfErr result
            (IsWanting (kept_by self.old holding) (item.now ∷ [])) }
    {
        let _ = item.key(); // For the proof.
        let _ = self.pages.leaves.count(); // For the proof.
        let entry = self.intake.packed_alone(lane, item, page)?;
        self.intake.reserve()?;
        self.pages.newest.reserve(1)?;
        let _ = apply_entry(&mut self.pages.leaves, page, item, &entry)?;
        file(&mut self.pages.making, &mut self.pages.newest, page, blocks);
        self.intake.enter_alone(lane, item, entry);
        Ok(())
    }

    // Enters a record that does not split its page, and whose Delta fits the frame in the making.
    // No block is made of it, and no last place is added. The search for its key on that page ended
    // so.
    pub(crate) fn enter_delta(
        &mut self,
        lane: usize,
        item: &Record,
        page: u32,
        found: Result<usize, usize>,
    ) -> Result<(), StoreFault>
        requires comes { Comes lane (item.now ∷ []) self.old holding }
        requires at { IsAt page item.now self.old }
        requires frame { HasFrame self.old holding }
        requires found { IsFound self.old.pages.leaves.leaves (key_of item.now) found }
        requires whole { length (result_of self.old.pages.leaves.leaves item.now).pairs
            ≤ self.old.pages.leaves.m }
        requires fits { FitsDelta self.old.pages.making page item.now }
        ensures takes { TakesGroup lane self.old result self.new holding }
        ensures ok { OnOk result (kept_by self.new holding
            ≡ taken (kept_by self.old holding) lane (alone item.now)
            (back_for (kept_by self.old holding) item.now)) }
        ensures unchanged { OnErr result (kept_by self.new holding ≡ kept_by self.old holding) }
        ensures refused { IfErr result
            (IsWanting (kept_by self.old holding) (item.now ∷ [])) }
    {
        let _ = item.key(); // For the proof.
        let _ = self.pages.leaves.count(); // For the proof.
        let back = self.pages.newest[page as usize - 1];
        let entry = self.intake.packed_alone(lane, item, page)?;
        self.intake.reserve()?;
        let _ = apply_found(&mut self.pages.leaves, page, found, item, &entry)?;
        file_delta(
            &mut self.pages.making,
            &mut self.pages.newest,
            page,
            back,
            entry.item(),
        );
        self.intake.enter_alone(lane, item, entry);
        Ok(())
    }
}
