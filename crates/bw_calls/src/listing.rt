//! The names of tables, from the last to the first.

ghost use Rattle.std.specs.Prelude.{◌≡◌, [], ◌∷◌, false, IfErr, IfOk, IsTrue};
ghost use Rattle.bw_record.specs.Keys.{is_below};
ghost use Rattle.bw_leaf.specs.Changed.{Bytes};
ghost use Rattle.bw_rows.specs.Spelling as spelling;
ghost use Rattle.bw_home.specs.Maps.{maps_of};
ghost use Rattle.bw_home.specs.Ready.{IsReady};
ghost use Rattle.bw_calls.specs.Listing.{IsAnyName, IsLastName, Names};
ghost use Rattle.bw_calls.specs.Lives.{Reads};
ghost use Rattle.bw_calls.specs.Standing.{plain_in, tables_in, waits};

use crate::fault::TableFault;
use crate::ways;
use bw_codec::Key;
use bw_home::Home;
use bw_rows::{Name, name_key};

// The kind of keys of names.
const NAME: u8 = 1;

// The name in a key; `None` if the kind of the key is below that of names.
fn name_in(key: &[u8]) -> Result<Option<Name>, TableFault>
    ensures names { IfOk result (λ name. Names key.now name) }
    ensures before { IfErr result (λ fault. waits fault ≡ false) }
{
    let [kind, bytes @ ..] = key else {
        return Ok(None);
    };
    if *kind < NAME {
        return Ok(None);
    }
    if *kind > NAME {
        return Err(TableFault::NotTables);
    }
    match Name::new(bytes) {
        Ok(name) => Ok(Some(name)),
        Err(_) => Err(TableFault::NotTables),
    }
}

// The last name whose key is below this one.
fn name_below(home: &mut Home, at: &Key) -> Result<Option<Name>, TableFault>
    requires { IsReady home.old holding }
    ensures ready { IsReady home.new holding }
    ensures same { (maps_of home.new holding).put ≡ (maps_of home.old holding).put }
    ensures name { IfOk result (λ name. IsLastName (tables_in home.old holding)
        (λ n. IsTrue (is_below (spelling.name_key n) at.now)) name) }
    ensures before { IfErr result (λ fault. waits fault ≡ false) }
    ensures leaves { Reads home.old home.new holding }
{
    match ways::below(home, at)? {
        Some((key, _)) => name_in(key.as_slice()),
        None => Ok(None),
    }
}

/// The last name of a table, in the order of their bytes; `None` if there is no table.
///
/// Refused `NotRead` as the store is, and `NotTables` if the store has other pairs than those of
/// tables.
pub fn last_name(home: &mut Home) -> Result<Option<Name>, TableFault>
    requires { IsReady home.old holding }
    ensures ready { IsReady home.new holding }
    ensures same { (maps_of home.new holding).put ≡ (maps_of home.old holding).put }
    ensures name { IfOk result (λ name.
        IsLastName (tables_in home.old holding) IsAnyName name) }
    ensures before { IfErr result (λ fault. waits fault ≡ false) }
    ensures leaves { Reads home.old home.new holding }
{
    name_below(home, &ways::key_of(&[NAME + 1]))
}

/// The last name of a table below this one; `None` if there is none. So a walk over all tables goes
/// from the last to the first. Refused as `last_name` is.
pub fn name_before(home: &mut Home, name: &Name) -> Result<Option<Name>, TableFault>
    requires { IsReady home.old holding }
    ensures ready { IsReady home.new holding }
    ensures same { (maps_of home.new holding).put ≡ (maps_of home.old holding).put }
    ensures name { IfOk result (λ found. IsLastName (tables_in home.old holding)
        (λ n. IsTrue (is_below n name.now)) found) }
    ensures before { IfErr result (λ fault. waits fault ≡ false) }
    ensures leaves { Reads home.old home.new holding }
{
    name_below(home, &name_key(name))
}
