//! Laws of the definitions only. Their functions do nothing.

ghost use Rattle.bw_versions.specs.Laws.{AreJoined};

/// What a list of batches comes to is the first one's start leaves, and the entries of all of
/// them, joined.
pub fn batches_are_joined()
    ensures { AreJoined }
{}
