//! The pairs of a store, page by page, in the order of their keys. No more of them than one page is
//! in memory.

ghost use Rattle.bw_care.specs.Found.{IsRecovered};

use crate::compared::Tally;
use crate::fault::RescueFault;
use crate::judged::Judged;
use bw_beside::Ask;
use bw_care::Recovered;
use bw_codec::{Key, Leaf};
use bw_look::{Unseen, Watch, Work};
use std::alloc::Global;

/// Whoever takes pages, one after the other.
pub(crate) trait Take: Drop {
    /// Takes the next one.
    fn take(&mut self, leaf: &Leaf) -> Result<(), RescueFault>;
}

impl Take for Tally {
    fn take(&mut self, leaf: &Leaf) -> Result<(), RescueFault> {
        Ok(self.add_all(leaf.pairs.as_slice())?)
    }
}

/// Hands over all pages in the order of their keys, and says how far it is in pairs.
pub(crate) fn each_page<T: Take, W: Watch>(
    pages: &mut Recovered,
    taker: &mut T,
    watch: &mut W,
) -> Result<(), RescueFault>
    requires { IsRecovered (λ b. holding (b.vtable, b.value)) pages.old }
    ensures { IsRecovered (λ b. holding (b.vtable, b.value)) pages.new }
{
    // No key is below this one.
    let Ok(mut key) = Key::new(&[0]) else {
        return Ok(());
    };
    let mut done = 0u64;
    'pages: for _ in 0..pages.leaves.count() {
        let number = pages.leaves.find(&key);
        if let Some(leaf) = pages.page(number)? {
            taker.take(&leaf)?;
            done = done.saturating_add(leaf.pairs.as_slice().len() as u64);
            watch.see(Work::Loading, done, pages.pairs);
        }
        match pages.leaves.low_above(&key) {
            Some(low) => key = low,
            None => return Ok(()),
        }
    }
    Ok(())
}

/// The tally of all pairs is asked for.
#[derive(Drop)]
pub(crate) struct TallyOf {
    pub(crate) alloc: Global,
}

impl<W> Ask<W> for TallyOf {
    type Answer = Result<(Judged, Tally), RescueFault>;

    fn ask(&mut self, pages: Recovered, _watch: &mut W) -> Result<(Judged, Tally), RescueFault> {
        let mut pages = pages;
        let judged = Judged::of(&pages);
        let mut tally = Tally::new(self.alloc);
        each_page(&mut pages, &mut tally, &mut Unseen)?;
        Ok((judged, tally))
    }
}
