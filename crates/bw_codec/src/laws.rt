//! What holds of the grammar itself: each function's contract is a law, and there is nothing to
//! run.

ghost use Rattle.bw_codec.specs.Laws.{OneSpelling, OneHeaderSpelling, BeginningsAreTails, OldMayBeWritten, NoFrameOfBoth};
ghost use Rattle.bw_codec.specs.Outline.{OutlinesTouch};
ghost use Rattle.bw_codec.specs.Sizes.{BlockLengths, LargestBlocks, LargestFit};

/// A lawful frame has one spelling, and no lawful frame's spelling begins another's: what was
/// written is read again, whatever follows it.
pub fn one_spelling()
    ensures { OneSpelling }
{}

/// Each proper beginning of a lawful frame's spelling is a tail: a write that stopped early leaves
/// no bytes that are called bad.
pub fn beginnings_are_tails()
    ensures { BeginningsAreTails }
{}

/// A lawful header has one spelling.
pub fn one_header_spelling()
    ensures { OneHeaderSpelling }
{}

/// What is lawful in format 1 may be written in the latest format.
pub fn old_may_be_written()
    ensures { OldMayBeWritten }
{}

/// No frame of one format is a frame of the other.
pub fn no_frame_of_both()
    ensures { NoFrameOfBoth }
{}

/// How long a lawful block is at most, by the pairs and records in it.
pub fn block_lengths()
    ensures { BlockLengths }
{}

/// The largest blocks if a page has at most 32 pairs: a Base has 20,712 bytes, a Delta of one
/// record 663, a Split of a page that holds one pair too many 11,083, and all blocks of one record
/// have less than 21,500.
pub fn largest_blocks()
    ensures { LargestBlocks }
{}

/// A page, and the blocks of one record, fit an empty frame whatever the segment's limits are: what
/// does not fit a frame fits the next one.
pub fn largest_fit()
    ensures { LargestFit }
{}

/// A block's outline touches the pages that the block touches.
pub fn outlines_touch()
    ensures { OutlinesTouch }
{}
