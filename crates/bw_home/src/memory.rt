//! Pages leave memory down to what a home is opened with, once it is asked for; they are then read
//! from the log.

ghost use Rattle.std.specs.Prelude.{◌≡◌, ◌↔◌, false, length, IsErrOf};
ghost use Rattle.bw_core.specs.Machine.{RunsAs};
ghost use Rattle.bw_core.specs.Rewriting.{are_pages, RewriteLeaves};

use crate::home::Home;
use bw_core::StoreFault;

/// How many pages are written again at once. With pairs of the greatest length these are 330 KB.
const BATCH: usize = 16;

/// How many batches are written at most.
const BATCHES: u32 = 64;

/// With segments of so many bytes a batch, and the frame before it, take no more than one spare.
const ROOM: u64 = 1_048_576;

impl Home {
    ghost use Rattle.bw_home.specs.Keeping.{KeepsEntries};
    ghost use Rattle.bw_home.specs.Maps.{StaysMap};
    ghost use Rattle.bw_home.specs.Ready.{kept_in, IsReady};

    /// Lets pages leave memory until those that stay take at most `Options::page_bytes`, and
    /// answers how many bytes they take. Pages that were asked for lately stay the longest. One
    /// that left is read from the log, and comes back once a record changes it.
    ///
    /// Pages that would be read from more than four frames are first written again, 16 at a time
    /// and 1,024 at most: so what waits is flushed then. Further ones stay until the next call. If
    /// writing might take the last spare, which a cleaning needs, pages leave as they are. If it is
    /// refused, as `rewrite` is, these 16 leave all the same, and the call says why.
    ///
    /// It is best called after `keep`, or `flush`: if no frame was appended since the last call,
    /// nothing is done. It costs work for each page that leaves, and nothing while the pages take
    /// less.
    pub fn keep_pages(&mut self) -> Result<u64, StoreFault>
        requires { IsReady self.old holding }
        ensures keeps { KeepsEntries self.old self.new holding }
        ensures stays { StaysMap self.old self.new holding }
    {
        let bytes = self.store.bytes_here();
        if bytes <= self.page_bytes || self.looked == Some(self.next_frame()) {
            return Ok(bytes);
        }
        self.let_pages_go()?;
        self.looked = Some(self.next_frame());
        Ok(self.store.bytes_here())
    }

    // Lets pages leave memory; those with a long walk are written again before.
    fn let_pages_go(&mut self) -> Result<(), StoreFault>
        requires { IsReady self.old holding }
        ensures { KeepsEntries self.old self.new holding }
    {
        'batches: for _ in 0..BATCHES {
            let mut long = self.room_for_long();
            self.let_go(&mut long);
            if long.is_empty() {
                return Ok(());
            }
            self.let_long_go(long.as_slice())?;
        }
        Ok(())
    }

    // Room for the pages that are to be written again first: none if that might take the last
    // spare.
    fn room_for_long(&self) -> Vec<u32>
        requires { IsReady self.now holding }
    {
        let mut long = Vec::new(*self.feeds.allocator());
        if self.store.spares() >= 2 && self.capacity() >= ROOM {
            let _ = long.reserve(BATCH);
        }
        long
    }

    // Writes these pages again, and lets them leave, also if that was refused.
    fn let_long_go(&mut self, long: &[u32]) -> Result<(), StoreFault>
        requires { IsReady self.old holding }
        ensures { KeepsEntries self.old self.new holding }
    {
        let written = self.rewrite(long);
        self.evict_all(long);
        written?;
        Ok(())
    }

    // Lets these pages leave memory, as far as they may.
    fn evict_all(&mut self, pages: &[u32])
        requires { IsReady self.old holding }
        ensures { KeepsEntries self.old self.new holding }
    {
        'pages: for page in pages {
            let _ = self.evict(*page);
        }
    }

    // Lets a page leave memory, if it may.
    fn evict(&mut self, page: u32) -> Result<bool, StoreFault>
        requires { IsReady self.old holding }
        ensures { KeepsEntries self.old self.new holding }
    {
        self.store.evict(page)
    }

    // Lets pages leave memory; those that are to be written first go into `long`.
    fn let_go(&mut self, long: &mut Vec<u32>)
        requires { IsReady self.old holding }
        ensures { KeepsEntries self.old self.new holding }
    {
        let _ = self.store.keep_pages(self.page_bytes, long);
    }

    /// Writes each of these pages again, whole, and answers in how many frames. As
    /// `Core::rewrite`.
    pub fn rewrite(&mut self, pages: &[u32]) -> Result<u64, StoreFault>
        requires { IsReady self.old holding }
        ensures keeps { KeepsEntries self.old self.new holding }
        ensures leaves { RewriteLeaves (kept_in self.old holding) pages.now result
            (kept_in self.new holding) }
        ensures no_page { IsErrOf result StoreFault.NoPage
            ↔ (are_pages (length (kept_in self.old holding).filed.leaves) pages.now ≡ false) }
        ensures runs { RunsAs (kept_in self.old holding) result (kept_in self.new holding) }
        ensures stays { StaysMap self.old self.new holding }
    {
        self.store.rewrite(pages)
    }
}
