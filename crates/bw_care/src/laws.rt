//! Laws over the definitions only.

ghost use Rattle.bw_care.specs.Laws.{FoundStand, StandingUnfaulted, OwnBoxesFound, OwnLimitsRead, WholeBoxesFound, SortedBoxesFound, SortedBoxesEmpty, OwnShortenedFound, OwnStopFound};

/// If no page of some frames is at fault, the frames stand for the leaves that are found.
pub fn found_leaves_stand()
    ensures { FoundStand }
{}

/// If frames stand for leaves, no page of them is at fault.
pub fn standing_pages_are_right()
    ensures { StandingUnfaulted }
{}

/// A log that has not failed can be taken up again: recovery of its boxes, the live ones and then
/// the spares, finds the leaves for which its counted frames stand, the first and the last of those
/// frames, and drops no box. It reports as many bytes of tails as its segments have.
pub fn own_boxes_are_found()
    ensures { OwnBoxesFound }
{}

/// If each segment of a log that has not failed ends with its last whole frame, recovery of its
/// boxes finds no tail. All segments end so to which nothing but whole appends were made.
pub fn whole_boxes_have_no_tail()
    ensures { WholeBoxesFound }
{}

/// Segments numbered one after the other, with any tails, and after them boxes that are empty, with
/// room, or hold a part of a header: if their frames stand for leaves, recovery finds these.
pub fn sorted_boxes_are_found()
    ensures { SortedBoxesFound }
{}

/// Segments numbered one after the other, with any tails, and after them boxes that are empty, with
/// room, or hold a part of a header: if there is no whole frame in them, recovery answers that, and
/// no other fault.
pub fn sorted_boxes_may_be_empty()
    ensures { SortedBoxesEmpty }
{}

/// A log that has not failed may have its newest segment shortened to any length: recovery of its
/// boxes finds the leaves for which the whole frames left stand, or says that there is none.
pub fn shortened_boxes_are_found()
    ensures { OwnShortenedFound }
{}

/// A log that has failed can be taken up again, whatever its failed append left: recovery of its
/// boxes finds the leaves for which all whole frames stand, or says that there is none.
pub fn stopped_boxes_are_found()
    ensures { OwnStopFound }
{}

/// If one of the boxes of a log has a segment, recovery reads the page limit that the log has,
/// whether an append failed or not.
pub fn own_limits_are_read()
    ensures { OwnLimitsRead }
{}
