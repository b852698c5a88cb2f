//! What holds of the machine itself: each function's contract is a law, and there is nothing to
//! run.

ghost use Rattle.bw_history.specs.Laws.{CallsAreSteps, DurableStays, LivesGoOn, LivesLoseNothing, StopsLeaveBeginnings};

/// What is durable stays so, and what it was, in however many steps.
pub fn what_is_durable_stays()
    ensures { DurableStays }
{}

/// A stop leaves a beginning of what was taken, in whole groups, with all that was durable.
pub fn a_stop_leaves_a_beginning()
    ensures { StopsLeaveBeginnings }
{}

/// What calls say that they did, in a contract's clause `steps`, are steps of the machine.
pub fn calls_are_steps()
    ensures { CallsAreSteps }
{}

/// Steps, stops, and what follows them are lives of one machine.
pub fn lives_go_on()
    ensures { LivesGoOn }
{}

/// However many lives a store has: what is found is a beginning of each, in whole groups, with all
/// that was durable in it, one after the other; and nothing else.
pub fn lives_lose_nothing()
    ensures { LivesLoseNothing }
{}
