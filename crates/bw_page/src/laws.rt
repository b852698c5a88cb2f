//! Laws over the definitions only, each the contract of a function that does nothing.

ghost use Rattle.bw_page.specs.Laws.{HomesAreRanges, LowsTell, AppliesPageByPage, TwiceIsOnce, ReadsOverNewer, ChainsReadOverNewer, StandsAsOne, HomesStay, HereTogether};

/// Lawful leaves may be said by homes or by ranges.
pub fn homes_are_ranges()
    ensures { HomesAreRanges }
{}

/// Only the low keys decide at which page a record is directed.
pub fn lows_tell()
    ensures { LowsTell }
{}

/// A record changes one page, or leaves its lower part there and makes a new page of the upper one.
pub fn applies_page_by_page()
    ensures { AppliesPageByPage }
{}

/// Records applied to a leaf twice in a row do what they do once.
pub fn twice_is_once()
    ensures { TwiceIsOnce }
{}

/// Records may be read over a page in which the oldest of them stand already.
pub fn reads_over_newer()
    ensures { ReadsOverNewer }
{}

/// A chain may be read over a page of the log in which its oldest records stand already.
pub fn chains_read_over_newer()
    ensures { ChainsReadOverNewer }
{}

/// Frames read forwards stand for one list of leaves only.
pub fn stands_as_one()
    ensures { StandsAsOne }
{}

/// A key's page after a record is the one before it, or the new one that the record made.
pub fn homes_stay()
    ensures { HomesStay }
{}

/// Records whose pages are in memory find them there when their turn comes.
pub fn here_together()
    ensures { HereTogether }
{}
