//! The ways to a home on which all calls stand: a value is read, and a group is written.
//!
//! Each takes first what waits in the queue, so that what is read is all that was put.

ghost use Rattle.std.specs.Prelude.{◌≡◌, ◌⊎◌, ◌<◌, ◌≤◌, Some, false, cond, length, nat_eq, IfErr, IfOk, IfSome, IsTrue, OnOk};
ghost use Rattle.std.specs.List.{starts_with};
ghost use Rattle.bw_page.specs.Ahead.{IsFirst};
ghost use Rattle.bw_walks.specs.Back.{IsLastBelow};
ghost use Rattle.bw_rows.specs.Steps.{after};
ghost use Rattle.bw_home.specs.Maps.{maps_of};
ghost use Rattle.bw_home.specs.Ready.{IsReady};
ghost use Rattle.bw_calls.specs.Lives.{Reads, Writes};
ghost use Rattle.bw_calls.specs.Standing.{is_waiting, plain_in, waits};
ghost use Rattle.bw_calls.specs.Changes.{IsFirstOf};

use crate::fault::TableFault;
use bw::Walk;
use bw_codec::{Key, Value};
use bw_home::{Home, MapFault};
use bw_ring::Group;

// Takes what waits in the queue.
fn take(home: &mut Home) -> Result<(), TableFault>
    requires { IsReady home.old holding }
    ensures ready { IsReady home.new holding }
    ensures same { (maps_of home.new holding).put ≡ (maps_of home.old holding).put }
    ensures taken { OnOk result ((maps_of home.new holding).now ≡ (maps_of home.new holding).put) }
    ensures before { IfErr result (λ fault. waits fault ≡ false) }
    ensures leaves { Reads home.old home.new holding }
{
    if home.feeds.len() != 1 {
        return Err(TableFault::NotMade(MapFault::Writers));
    }
    match home.take_all() {
        Ok(_) => Ok(()),
        Err(cause) => Err(TableFault::NotRead(cause)),
    }
}

/// The value of a key of the store.
pub(crate) fn get(home: &mut Home, key: &Key) -> Result<Option<Value>, TableFault>
    requires { IsReady home.old holding }
    ensures ready { IsReady home.new holding }
    ensures same { (maps_of home.new holding).put ≡ (maps_of home.old holding).put }
    ensures value { IfOk result (λ value. value ≡ plain_in home.old holding key.now) }
    ensures before { IfErr result (λ fault. waits fault ≡ false) }
    ensures leaves { Reads home.old home.new holding }
{
    take(home)?;
    match home.get(key) {
        Ok(value) => Ok(value),
        Err(cause) => Err(TableFault::NotRead(cause)),
    }
}

// Why a step was refused, which may wait all the same.
fn step_fault(fault: MapFault) -> TableFault
    ensures { waits result ≡ is_waiting fault }
{
    match fault {
        MapFault::Waits(cause) => TableFault::Waits(cause),
        other => TableFault::NotMade(other),
    }
}

/// Writes a group, which is the step of a call.
pub(crate) fn step(home: &mut Home, group: Group) -> Result<(), TableFault>
    requires { IsReady home.old holding }
    ensures ready { IsReady home.new holding }
    ensures changed { OnOk result
        (plain_in home.new holding ≡ after (plain_in home.old holding) group) }
    ensures refused { IfErr result (λ fault. plain_in home.new holding
        ≡ cond (waits fault) (after (plain_in home.old holding) group)
        (plain_in home.old holding)) }
    ensures leaves { Writes (after (plain_in home.old holding) group)
        home.old home.new holding }
{
    match home.change(group) {
        Ok(()) => Ok(()),
        Err(fault) => Err(step_fault(fault)),
    }
}

/// Writes a group that is no call's step.
pub(crate) fn prepare(home: &mut Home, group: Group) -> Result<(), TableFault>
    requires { IsReady home.old holding }
    ensures ready { IsReady home.new holding }
    ensures changed { OnOk result
        (plain_in home.new holding ≡ after (plain_in home.old holding) group) }
    ensures refused { IfErr result (λ fault.
        (plain_in home.new holding ≡ plain_in home.old holding)
        ⊎ (plain_in home.new holding ≡ after (plain_in home.old holding) group)) }
    ensures before { IfErr result (λ fault. waits fault ≡ false) }
    ensures leaves { Writes (after (plain_in home.old holding) group)
        home.old home.new holding }
{
    match home.change(group) {
        Ok(()) => Ok(()),
        Err(fault) => Err(TableFault::NotMade(fault)),
    }
}

/// The first pair whose key begins with this one.
pub(crate) fn first(home: &mut Home, prefix: Key) -> Result<Option<(Key, Value)>, TableFault>
    requires { IsReady home.old holding }
    ensures ready { IsReady home.new holding }
    ensures same { (maps_of home.new holding).put ≡ (maps_of home.old holding).put }
    ensures value { IfOk result (λ pair. IsFirstOf (plain_in home.old holding) prefix pair) }
    ensures before { IfErr result (λ fault. waits fault ≡ false) }
    ensures leaves { Reads home.old home.new holding }
{
    take(home)?;
    let mut walk = Walk::over(prefix);
    match walk.next(home) {
        Ok(pair) => Ok(pair),
        Err(cause) => Err(TableFault::NotRead(cause)),
    }
}

// A pair, if its key begins with this one.
fn within(pair: Option<(Key, Value)>, prefix: &Key) -> Option<(Key, Value)>
    ensures { IfSome result (λ its. (pair ≡ Some its)
        × IsTrue (starts_with nat_eq its.0 prefix.now)) }
{
    let (key, value) = pair?;
    if key.as_slice().starts_with(prefix.as_slice()) {
        Some((key, value))
    } else {
        None
    }
}

/// A pair whose key begins with this one, if there is any: the first at or above the hint, or else
/// the first of all. What was deleted leaves empty pages, over which a look from the beginning goes
/// each time.
pub(crate) fn some_of(
    home: &mut Home,
    prefix: Key,
    hint: &Key,
) -> Result<Option<(Key, Value)>, TableFault>
    requires { IsReady home.old holding }
    ensures ready { IsReady home.new holding }
    ensures same { (maps_of home.new holding).put ≡ (maps_of home.old holding).put }
    ensures value { IfOk result (λ pair. IsFirstOf (plain_in home.old holding) prefix pair) }
    ensures before { IfErr result (λ fault. waits fault ≡ false) }
    ensures leaves { Reads home.old home.new holding }
{
    let pair = from(home, hint)?;
    match within(pair, &prefix) {
        Some(pair) => Ok(Some(pair)),
        None => first(home, prefix),
    }
}

/// The first pair whose key is at or above this one.
pub(crate) fn from(home: &mut Home, key: &Key) -> Result<Option<(Key, Value)>, TableFault>
    requires { IsReady home.old holding }
    ensures ready { IsReady home.new holding }
    ensures same { (maps_of home.new holding).put ≡ (maps_of home.old holding).put }
    ensures value { IfOk result (λ pair. IsFirst (maps_of home.old holding).put key.now pair) }
    ensures before { IfErr result (λ fault. waits fault ≡ false) }
    ensures leaves { Reads home.old home.new holding }
{
    take(home)?;
    match home.next_at(key) {
        Ok(pair) => Ok(pair),
        Err(cause) => Err(TableFault::NotRead(cause)),
    }
}

/// The last pair whose key is below this one.
pub(crate) fn below(home: &mut Home, key: &Key) -> Result<Option<(Key, Value)>, TableFault>
    requires { IsReady home.old holding }
    ensures ready { IsReady home.new holding }
    ensures same { (maps_of home.new holding).put ≡ (maps_of home.old holding).put }
    ensures value { IfOk result (λ pair.
        IsLastBelow (maps_of home.old holding).put key.now pair) }
    ensures before { IfErr result (λ fault. waits fault ≡ false) }
    ensures leaves { Reads home.old home.new holding }
{
    take(home)?;
    match home.prev_below(key) {
        Ok(pair) => Ok(pair),
        Err(cause) => Err(TableFault::NotRead(cause)),
    }
}

/// The key of these bytes.
pub(crate) fn key_of(bytes: &[u8]) -> Key
    requires some { 0 < length bytes.now }
    requires few { length bytes.now ≤ 128 }
    ensures { result ≡ bytes.now }
{
    match Key::new(bytes) {
        Ok(key) => key,
        Err(_) => unreachable!(),
    }
}
