//! What holds of the records that contracts speak in: each function's contract is a law, and there
//! is nothing to run.

ghost use Rattle.bw_core.specs.Goal.{EachLineFollows};
ghost use Rattle.bw_core.specs.Relived.{BeginningsGoOn, OpeningsGoOn};

/// The goal, line by line, without the names of its record.
pub fn each_line_of_the_goal()
    ensures { EachLineFollows }
{}

/// Whoever begins over the boxes of a store goes on with what its end left: all that was durable,
/// or, if an append failed, maybe all that was taken.
pub fn beginnings_go_on()
    ensures { BeginningsGoOn }
{}

/// If recovery of the boxes of a store finds nothing, nothing was kept: a store that is opened anew
/// goes on with that.
pub fn openings_go_on()
    ensures { OpeningsGoOn }
{}
