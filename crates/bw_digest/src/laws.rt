//! What holds of sums themselves: each function's contract is a law, and there is nothing to run.

ghost use Rattle.bw_digest.specs.Laws.{NoFalseAlarm, WhatFitsWasWritten};

/// What a crash leaves is no damage. The sums are those of the first pieces that were written;
/// after their bytes stands anything, as the pieces whose sums were lost and a part of one; and
/// after the sums stands anything that does not follow them, as a part of one, a hole, or sums of
/// an earlier file. Then `check` answers Ok, and the row of these sums.
pub fn no_false_alarm()
    ensures { NoFalseAlarm }
{}

/// Bytes that fit the sums of pieces begin with the bytes of these pieces. The one way out is a run
/// of bytes with the digest of another.
pub fn what_fits_was_written()
    ensures { WhatFitsWasWritten }
{}
