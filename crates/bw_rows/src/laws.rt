//! The laws of the spelling and of the groups that calls write.

ghost use Rattle.bw_rows.specs.Batches.{ABatchIsGathered, ABatchIsOneStep};
ghost use Rattle.bw_rows.specs.Laws.{ChunksMakeTheValue, EachGroupIsLawful, TablesComeAndGo};
ghost use Rattle.bw_rows.specs.Order.{KeepsOrder, ReadsBack, TablesApart};
ghost use Rattle.bw_rows.specs.Worked.{AreSpelled, AreTold};

/// The keys of rows are read back, and stand in the order of the tables' own keys; tables do not
/// mix.
pub fn the_order_is_kept()
    ensures order { KeepsOrder }
    ensures apart { TablesApart }
    ensures back { ReadsBack }
{}

/// Each group that a put, a delete or a collection writes leaves a lawful map. The tables are the
/// ones before it, or, of the step, those with one key changed.
pub fn each_group_is_lawful()
    ensures { EachGroupIsLawful }
{}

/// The mark of a batch makes all its changes. Each other group of it changes no table.
pub fn a_batch_is_one_step()
    ensures { ABatchIsOneStep }
{}

/// The rows of a batch are written aside one by one. Each makes one change more of those that its
/// mark makes.
pub fn a_batch_is_gathered()
    ensures { ABatchIsGathered }
{}

/// A table comes, and goes, in one group. What a dropped one leaves goes away and changes no table.
pub fn tables_come_and_go()
    ensures { TablesComeAndGo }
{}

/// The chunks of a value, one after the other, are the value.
pub fn chunks_make_the_value()
    ensures { ChunksMakeTheValue }
{}

/// The definitions, on the worked bytes of the page on tables.
pub fn the_worked_bytes()
    ensures spelled { AreSpelled }
    ensures told { AreTold }
{}
