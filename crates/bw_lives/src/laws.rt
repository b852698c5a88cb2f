//! What holds of any number of lives: a contract is a law, and there is nothing to run.

ghost use Rattle.bw_lives.specs.Many.{LivesLoseNothing};

/// However many lives a store has: what it goes on with is a beginning of each life before, in
/// whole groups, with all that was durable in it, one after the other, and nothing else.
pub fn lives_lose_nothing()
    ensures { LivesLoseNothing }
{}
