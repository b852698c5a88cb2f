//! What a block that stands at a place says of a key.
//!
//! If its segment lends its bytes, the block is looked at where it lies, and no pair is copied. A
//! segment that lends none is read: of its reads none is added, and none is left out.

ghost use Rattle.std.specs.Prelude.{◌≡◌, ◌≢◌, ◌-◌, ◌<◌, length, Err, IfOk, IfErr, IfSome};
ghost use Rattle.bw_record.specs.declared.block.Block.{Block as BlockValue};
ghost use Rattle.bw_log.specs.BlockBytes.{BlockAt, HasIndex, IsSpelled, IsSpot};
ghost use Rattle.bw_log.specs.Contents.{counted};
ghost use Rattle.bw_log.specs.Lent.{heard_of, says};
ghost use Rattle.bw_log.specs.Places.{all_placed, first_number};
ghost use Rattle.bw_log.specs.Reads.{IsLineIn, ReadStops};
ghost use Rattle.bw_log.specs.Walking.{PlacedAt, IsPlace};

use crate::blocks::Spot;
use crate::fault::LogFault;
use crate::lent::word_in_bytes;
use crate::log::Log;
use crate::pages::back_of;
use crate::starts::starts_in;
use bw_codec::{CodecFault, Key, Place};
use bw_device::lend_of;
use bw_page::{Word, word_in_blocks};

impl Log {
    ghost use Rattle.bw_log.specs.Views.{seen_by, IsSound};

    // Learns where the blocks of a counted frame begin, if it is not known of that of this index
    // and the frame's segment lends its bytes.
    fn look_through(&mut self, i: usize, spot: Spot, index: u32) -> Result<(), LogFault>
        requires sound { IsSound holding self.old }
        requires inside { i < length self.old.frames.items }
        requires stands { IsSpot (seen_by holding self.old) i spot }
        ensures same { seen_by holding self.new ≡ seen_by holding self.old }
        ensures memory { IfErr result (λ fault. fault ≡ LogFault.NoMemory) }
    {
        if self.frames[i].starts.span(spot.len, index).is_some() {
            return Ok(());
        }
        let Some(bytes) = lend_of(&self.live, spot.at) else {
            return Ok(());
        };
        let frame = &bytes[spot.from as usize..][..spot.len as usize];
        match starts_in(*self.frames.allocator(), spot.version, frame) {
            Ok(known) => {
                self.frames[i].starts.learn(known);
                Ok(())
            }
            Err(CodecFault::NoMemory) => Err(LogFault::NoMemory),
            Err(CodecFault::BadBytes) => unreachable!(),
        }
    }

    // The bytes of a block, and those that follow it in its segment, where they lie: if the
    // segment lends them, and the block's frame was looked through.
    fn lent_block(&self, i: usize, spot: Spot, index: u32) -> Option<&[u8]>
        requires sound { IsSound holding self.now }
        requires inside { i < length self.now.frames.items }
        requires stands { IsSpot (seen_by holding self.now) i spot }
        requires there { HasIndex (counted (seen_by holding self.now)) i index }
        ensures { (block : BlockValue) → BlockAt (counted (seen_by holding self.now)) i index block
            → IfSome result (λ bytes. IsSpelled spot.version self.now.m bytes.now block) }
    {
        let (start, _) = self.frames[i].starts.span(spot.len, index)?;
        let bytes = lend_of(&self.live, spot.at)?;
        Some(&bytes[spot.from as usize..][start as usize..])
    }

    // What a block says that is read, not lent.
    fn hear_read(
        &mut self,
        page: u32,
        key: &Key,
        place: Place,
        word: &mut Word,
    ) -> Result<Option<Place>, LogFault>
        requires sound { IsSound holding self.old }
        requires there { IsPlace (all_placed (counted (seen_by holding self.old))) place }
        ensures heard { (block : BlockValue)
            → PlacedAt (all_placed (counted (seen_by holding self.old))) place block
            → IfOk result (λ link. heard_of word.new link ≡ says page key.now block) }
        ensures stops { ReadStops (λ j. IsLineIn (seen_by holding self.old)
            (place.frame - first_number (counted (seen_by holding self.old))) j)
            (seen_by holding self.old) result (seen_by holding self.new) }
        ensures paged { result ≢ Err LogFault.NoPage }
    {
        let block = self.block_at(place)?;
        let link = back_of(page, &block);
        *word = word_in_blocks(page, key, &[block]);
        Ok(link)
    }

    /// Sets the word to what the block at a place in a counted frame says of a key on a page, and
    /// answers where the block links back to if it changes this page.
    pub(crate) fn hear(
        &mut self,
        page: u32,
        key: &Key,
        place: Place,
        word: &mut Word,
    ) -> Result<Option<Place>, LogFault>
        requires sound { IsSound holding self.old }
        requires there { IsPlace (all_placed (counted (seen_by holding self.old))) place }
        ensures heard { (block : BlockValue)
            → PlacedAt (all_placed (counted (seen_by holding self.old))) place block
            → IfOk result (λ link. heard_of word.new link ≡ says page key.now block) }
        ensures stops { ReadStops (λ j. IsLineIn (seen_by holding self.old)
            (place.frame - first_number (counted (seen_by holding self.old))) j)
            (seen_by holding self.old) result (seen_by holding self.new) }
        ensures paged { result ≢ Err LogFault.NoPage }
    {
        let i = (place.frame - self.frames[0].number) as usize;
        let spot = self.spot(i);
        self.look_through(i, spot, place.index)?;
        if let Some(bytes) = self.lent_block(i, spot, place.index) {
            return Ok(word_in_bytes(spot.version, self.m, page, key, bytes, word));
        }
        self.hear_read(page, key, place, word)
    }
}
