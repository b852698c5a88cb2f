//! The value of one key on a page, from the page's newest block back.
//!
//! The newest block that says something of the key decides, so the walk ends there: a key that
//! changed lately costs one frame, however old its page is. Read forwards, the whole page would
//! have to be made for it. A block whose segment lends its bytes is looked at where it lies; of
//! those that are read the walk holds one at a time.

ghost use Rattle.std.specs.Prelude.{◌≡◌, ◌≢◌, ◌↔◌, [], Err, IfOk};
ghost use Rattle.bw_leaf.specs.Forwards.{content, blocks_of};
ghost use Rattle.bw_leaf.specs.Words.{value_on};
ghost use Rattle.bw_log.specs.Places.{all_placed};
ghost use Rattle.bw_log.specs.Contents.{counted};
ghost use Rattle.bw_log.specs.Reads.{IsPage, IsKept, HoldsPage, ReadStops};
ghost use Rattle.bw_log.specs.Walking.{IsWalk};

use crate::fault::LogFault;
use crate::log::Log;
use bw_codec::{Key, Place, Value};
use bw_page::Word;

impl Log {
    ghost use Rattle.bw_log.specs.Views.{seen_by, IsSound};

    // Reads blocks of a page from this one back to the first that says something of the key.
    fn value_back(&mut self, page: u32, key: &Key, start: Place) -> Result<Option<Value>, LogFault>
        requires sound { IsSound holding self.old }
        requires starts { IsWalk page (all_placed (counted (seen_by holding self.old))) start [] }
        ensures value { IfOk result (λ value. value ≡ value_on key.now
            (content page (blocks_of (counted (seen_by holding self.old))))) }
        ensures stops { ReadStops (HoldsPage (seen_by holding self.old) page)
            (seen_by holding self.old) result (seen_by holding self.new) }
        ensures paged { result ≢ Err LogFault.NoPage }
    {
        let mut place = start;
        let mut word = Word::Silent;
        'back: loop {
            let link = self.hear(page, key, place, &mut word)?;
            match word {
                Word::Silent => {}
                Word::Gone => return Ok(None),
                Word::Holds(value) => return Ok(Some(value)),
            }
            match link {
                Some(back) => place = back,
                None => unreachable!(),
            }
        }
    }

    /// The value of a key on a page, as the counted frames leave it. It looks at the blocks of the
    /// page from the newest back to the first with a record of the key, one that sets the page, or
    /// one that splits the key off. So a key that changed lately costs few blocks, however many
    /// touch the page. Whether the key belongs to the page is not asked. A block whose segment
    /// lends its bytes is looked at where it lies, and only the value is copied; of blocks that are
    /// read one is in memory at a time. Refused as `read_page` is, but by no segment that lends its
    /// bytes.
    pub fn read_value(&mut self, page: u32, key: &Key) -> Result<Option<Value>, LogFault>
        requires { IsSound holding self.old }
        ensures value { IfOk result (λ value. value ≡ value_on key.now
            (content page (blocks_of (counted (seen_by holding self.old))))) }
        ensures sound { IsSound holding self.new }
        ensures kept { IsKept (seen_by holding self.old) (seen_by holding self.new) }

        ensures no_page { result ≡ Err LogFault.NoPage
            ↔ (IsPage (seen_by holding self.old) page → ⊥) }
        ensures stops { ReadStops (HoldsPage (seen_by holding self.old) page)
            (seen_by holding self.old) result (seen_by holding self.new) }
    {
        let Some(entry) = self.page_at(page) else {
            return Err(LogFault::NoPage);
        };
        self.value_back(page, key, entry.place)
    }
}
