//! A store of tables is opened, and kept.

ghost use Rattle.std.specs.Prelude.{◌≡◌, [], ◌∷◌, OnOk};
ghost use Rattle.bw_rows.specs.Batches.{IsLeft};
ghost use Rattle.bw_rows.specs.Laws.{IsLawful, IsTables};
ghost use Rattle.bw_rows.specs.Meaning.{Tables};
ghost use Rattle.bw_home.specs.Maps.{maps_of, IsMapBy};
ghost use Rattle.bw_home.specs.Ready.{IsReady};
ghost use Rattle.bw_calls.specs.Changes.{IsFinished, IsOfTables};
ghost use Rattle.bw_calls.specs.Standing.{plain_in, tables_in};
ghost use Rattle.bw_calls.specs.Lives.{LeavesSome, Reads, Stays};

use crate::batching::settle;
use crate::collecting::collect_all;
use crate::fault::TableFault;
use crate::naming::clear_gone;
use bw_home::Home;

/// Finishes what a stop or a refusal left half done. A batch that stands is carried out; what is
/// aside of one that does not stand goes away. Then the rows of tables that are gone go away, and
/// the chunks of all doomed numbers. If nothing was left it is five searches. The tables stay,
/// whatever the answer. After Ok no batch stands, no number is doomed, and each row is of a table.
///
/// Refused `NotRead` and `NotMade` as the store is, and `NotTables` if the store has other pairs
/// than those of tables.
pub fn open(home: &mut Home) -> Result<(), TableFault>
    requires { IsReady home.old holding }
    ensures ready { IsReady home.new holding }
    ensures stays { IsLawful (plain_in home.old holding)
        → IsTables (tables_in home.old holding) (plain_in home.new holding) }
    ensures opened { (tables : Tables) → IsLeft tables (plain_in home.old holding)
        → OnOk result (IsTables tables (plain_in home.new holding)) }
    ensures left { (tables : Tables) → IsLeft tables (plain_in home.old holding)
        → IsLeft tables (plain_in home.new holding) }
    ensures finished { OnOk result (IsFinished (plain_in home.new holding)) }
    ensures rows { (tables : Tables) → IsLeft tables (plain_in home.old holding)
        → OnOk result (IsOfTables (plain_in home.new holding)) }
    ensures leaves { (tables : Tables) → IsLeft tables (plain_in home.old holding)
        → Stays tables home.old home.new holding }
{
    settle(home)?;
    clear_gone(home)?;
    collect_all(home)
}

/// Makes all that was put durable: from then on a stop leaves these tables, and no others.
///
/// Refused `NotKept` as `Home::keep` is: what was kept before is kept, and the tables stay.
pub fn keep(home: &mut Home) -> Result<(), TableFault>
    requires { IsReady home.old holding }
    ensures ready { IsReady home.new holding }
    ensures same { (maps_of home.new holding).put ≡ (maps_of home.old holding).put }
    ensures kept { IsLawful (plain_in home.old holding) → IsMapBy home.old holding
        → OnOk result (LeavesSome (tables_in home.old holding ∷ []) home.new holding) }
    ensures leaves { Reads home.old home.new holding }
{
    match home.keep() {
        Ok(_) => Ok(()),
        Err(fault) => Err(TableFault::NotKept(fault)),
    }
}
