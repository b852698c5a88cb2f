//! The laws of the groups that a put writes.

ghost use Rattle.bw_tables.specs.Writing.{APutIsOneStep};

/// Up to the group of its row, a put of a long value leaves the tables as they were. After it they
/// have the value.
pub fn a_put_is_one_step()
    ensures { APutIsOneStep }
{}
