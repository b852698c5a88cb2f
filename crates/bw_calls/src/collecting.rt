//! Chunks of doomed numbers go away.

ghost use Rattle.std.specs.Prelude.{◌≡◌, ◌∷◌, true, false, None, IfErr, IfOk, OnOk};
ghost use Rattle.bw_rows.specs.Law.{is_doomed};
ghost use Rattle.bw_rows.specs.Laws.{HasNoChunk, IsLawful, IsTables};
ghost use Rattle.bw_home.specs.Maps.{maps_of};
ghost use Rattle.bw_home.specs.Ready.{IsReady};
ghost use Rattle.bw_calls.specs.Changes.{HasSameMarks, IsClean, IsCollecting};
ghost use Rattle.bw_calls.specs.Lives.{Reads, Stays};
ghost use Rattle.bw_calls.specs.Standing.{plain_in, tables_in, waits};

use crate::fault::TableFault;
use crate::ways;
use bw_codec::{Key, Record};
use bw_home::Home;
use bw_ring::Group;
use bw_rows::{Number, chunk_key, doomed_key};
use bw_tables::free_group;

// How many chunks a value may have.
const MOST: u32 = 32_768;

// The kind of keys that doom a number.
pub(crate) const DOOMED: u8 = 2;

// The kind of keys of chunks.
pub(crate) const CHUNK: u8 = 7;

// What the keys of a number's chunks begin with.
fn front_of(number: Number) -> Key
    ensures { result ≡ 7 ∷ number.bytes }
{
    let mut bytes = [CHUNK; 9];
    bytes[1..].copy_from_slice(&number.bytes);
    ways::key_of(&bytes)
}

// The number in the key that dooms it.
fn number_in(key: &[u8]) -> Option<Number> {
    if key.len() != 9 {
        return None;
    }
    let mut bytes = [0; 8];
    bytes.copy_from_slice(&key[1..]);
    Some(Number { bytes })
}

// The index of a chunk, in its key.
fn index_in(key: &[u8]) -> Option<u32> {
    if key.len() != 13 {
        return None;
    }
    let mut bytes = [0; 4];
    bytes.copy_from_slice(&key[9..]);
    Some(u32::from_be_bytes(bytes))
}

// The index of a chunk of a number, by a hint; `None` if it has none.
fn first_left(home: &mut Home, number: Number, hint: &Key) -> Result<Option<u32>, TableFault>
    requires { IsReady home.old holding }
    ensures ready { IsReady home.new holding }
    ensures same { (maps_of home.new holding).put ≡ (maps_of home.old holding).put }
    ensures none { IfOk result (λ left. left ≡ None
        → HasNoChunk (plain_in home.old holding) number.bytes) }
    ensures before { IfErr result (λ fault. waits fault ≡ false) }
    ensures leaves { Reads home.old home.new holding }
{
    match ways::some_of(home, front_of(number), hint)? {
        None => Ok(None),
        Some((key, _)) => match index_in(key.as_slice()) {
            Some(i) => Ok(Some(i)),
            None => Err(TableFault::NotTables),
        },
    }
}

// A chunk of a doomed number goes away.
fn drop_chunk(home: &mut Home, number: Number, i: u32) -> Result<(), TableFault>
    requires { IsReady home.old holding }
    ensures ready { IsReady home.new holding }
    ensures stays { IsLawful (plain_in home.old holding)
        → is_doomed (plain_in home.old holding) number.bytes ≡ true
        → IsCollecting (tables_in home.old holding) (plain_in home.new holding) number.bytes }
    ensures marks { HasSameMarks (plain_in home.old holding) (plain_in home.new holding) }
    ensures before { IfErr result (λ fault. waits fault ≡ false) }
    ensures leaves { IsLawful (plain_in home.old holding)
        → is_doomed (plain_in home.old holding) number.bytes ≡ true
        → Stays (tables_in home.old holding) home.old home.new holding }
{
    ways::prepare(home, Group::one(Record::Del(chunk_key(number, i))))
}

// A number without chunks may be taken again.
fn free(home: &mut Home, number: Number) -> Result<(), TableFault>
    requires { IsReady home.old holding }
    ensures ready { IsReady home.new holding }
    ensures stays { IsLawful (plain_in home.old holding)
        → HasNoChunk (plain_in home.old holding) number.bytes
        → IsTables (tables_in home.old holding) (plain_in home.new holding) }
    ensures marks { HasSameMarks (plain_in home.old holding) (plain_in home.new holding) }
    ensures before { IfErr result (λ fault. waits fault ≡ false) }
    ensures leaves { IsLawful (plain_in home.old holding)
        → HasNoChunk (plain_in home.old holding) number.bytes
        → Stays (tables_in home.old holding) home.old home.new holding }
{
    ways::prepare(home, free_group(number))
}

// The chunks of a doomed number go away, and then it may be taken again.
fn collect_doomed(home: &mut Home, number: Number) -> Result<(), TableFault>
    requires { IsReady home.old holding }
    ensures ready { IsReady home.new holding }
    ensures stays { IsLawful (plain_in home.old holding)
        → is_doomed (plain_in home.old holding) number.bytes ≡ true
        → IsTables (tables_in home.old holding) (plain_in home.new holding) }
    ensures marks { HasSameMarks (plain_in home.old holding) (plain_in home.new holding) }
    ensures before { IfErr result (λ fault. waits fault ≡ false) }
    ensures leaves { IsLawful (plain_in home.old holding)
        → is_doomed (plain_in home.old holding) number.bytes ≡ true
        → Stays (tables_in home.old holding) home.old home.new holding }
{
    let mut hint = front_of(number);
    'chunks: for _ in 0..=MOST {
        match first_left(home, number, &hint)? {
            Some(i) => {
                drop_chunk(home, number, i)?;
                hint = chunk_key(number, i);
            }
            None => return free(home, number),
        }
    }
    Err(TableFault::NotTables)
}

/// The chunks of a number go away, if it is doomed; whatever the answer, the tables stay.
pub(crate) fn collect(home: &mut Home, number: Number) -> Result<(), TableFault>
    requires { IsReady home.old holding }
    ensures ready { IsReady home.new holding }
    ensures stays { IsLawful (plain_in home.old holding)
        → IsTables (tables_in home.old holding) (plain_in home.new holding) }
    ensures marks { HasSameMarks (plain_in home.old holding) (plain_in home.new holding) }
    ensures before { IfErr result (λ fault. waits fault ≡ false) }
    ensures leaves { IsLawful (plain_in home.old holding)
        → Stays (tables_in home.old holding) home.old home.new holding }
{
    match ways::get(home, &doomed_key(number))? {
        Some(_) => collect_doomed(home, number),
        None => Ok(()),
    }
}

// The first number that is doomed.
fn first_doomed(home: &mut Home) -> Result<Option<Number>, TableFault>
    requires { IsReady home.old holding }
    ensures ready { IsReady home.new holding }
    ensures same { (maps_of home.new holding).put ≡ (maps_of home.old holding).put }
    ensures none { IfOk result (λ first. first ≡ None
        → IsClean (plain_in home.old holding)) }
    ensures before { IfErr result (λ fault. waits fault ≡ false) }
    ensures leaves { Reads home.old home.new holding }
{
    match ways::first(home, ways::key_of(&[DOOMED]))? {
        None => Ok(None),
        Some((key, _)) => match number_in(key.as_slice()) {
            Some(number) => Ok(Some(number)),
            None => Err(TableFault::NotTables),
        },
    }
}

/// The chunks of all doomed numbers go away.
pub(crate) fn collect_all(home: &mut Home) -> Result<(), TableFault>
    requires { IsReady home.old holding }
    ensures ready { IsReady home.new holding }
    ensures stays { IsLawful (plain_in home.old holding)
        → IsTables (tables_in home.old holding) (plain_in home.new holding) }
    ensures clean { OnOk result (IsClean (plain_in home.new holding)) }
    ensures marks { OnOk result
        (HasSameMarks (plain_in home.old holding) (plain_in home.new holding)) }
    ensures leaves { IsLawful (plain_in home.old holding)
        → Stays (tables_in home.old holding) home.old home.new holding }
{
    'numbers: for _ in 0..u64::MAX {
        match first_doomed(home)? {
            Some(number) => collect(home, number)?,
            None => return Ok(()),
        }
    }
    Err(TableFault::NotTables)
}
