//! What holds of tables over lives: each function's contract is a law, and there is nothing to run.

ghost use Rattle.bw_calls.specs.Laws.{AnEmptyStoreIsLawful, AStopLeavesTables, TablesGoOn};

/// A store without a pair has tables: none.
pub fn an_empty_store_is_lawful()
    ensures { AnEmptyStoreIsLawful }
{}

/// Whatever a stop leaves of a home with tables is lawful, and has the tables that some call left.
pub fn a_stop_leaves_tables()
    ensures { AStopLeavesTables }
{}

/// A store that begins over the segments of a home with tables has the tables that some call left.
pub fn tables_go_on()
    ensures { TablesGoOn }
{}
