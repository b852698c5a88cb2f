//! What a log is that was written whole. The contract is the law, and there is nothing to run.

ghost use Rattle.bw_whole.specs.Written.{WritesThem};

/// Pairs that are put one after the other, and then ended, are a log of them: lawful frames from
/// number 1 on, in segments from number 1 on; of Bases only, each of which sets a page, from page 1
/// on. Each page but the last is full, each but the first begins at its first key, and together
/// they have these pairs and no others. Read forwards the frames are these pages, and they are
/// lawful.
pub fn writes_them()
    ensures { WritesThem }
{}
