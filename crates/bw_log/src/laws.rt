//! What holds of the forward reading: the function's contract is a law, and there is nothing to
//! run.

ghost use Rattle.bw_log.specs.Laws.{Locality};

/// A page's content depends only on the blocks that touch it, from its last setting block on: so it
/// may be read by the links back, and older segments may be given up.
pub fn locality()
    ensures { Locality }
{}
