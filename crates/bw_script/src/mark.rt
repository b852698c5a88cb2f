//! Whether a store has tables, or pairs of its own.

ghost use Rattle.bw_home.specs.Ready.{IsReady};

use bw_codec::Key;
use bw_codec::limits::MAX_KEY;
use bw_core::StoreFault;
use bw_home::Home;
use bw_rows::mark_key;

/// The greatest kind that a key of a store with tables has as its first byte.
const LAST: u8 = 9;

/// What a store has.
#[derive(Debug, Clone, Copy, PartialEq, Eq)]
pub enum Kind {
    /// No pair.
    Empty,
    /// Tables: their mark, and no pair that is none of theirs as far as the first and the last one
    /// show.
    Tables,
    /// Pairs of its own.
    Plain,
}

/// Whether the mark is there, which has no value.
fn has_mark(home: &mut Home) -> Result<bool, StoreFault>
    requires { IsReady home.old holding }
    ensures { IsReady home.new holding }
{
    match home.get(&mark_key())? {
        Some(value) => Ok(value.as_slice().is_empty()),
        None => Ok(false),
    }
}

/// The first byte of the last key of a store.
fn last_kind(home: &mut Home) -> Result<Option<u8>, StoreFault>
    requires { IsReady home.old holding }
    ensures { IsReady home.new holding }
{
    let Ok(greatest) = Key::new(&[u8::MAX; MAX_KEY]) else {
        return Ok(None);
    };
    match home.prev_at(&greatest)? {
        Some((key, _)) => Ok(key.as_slice().first().copied()),
        None => Ok(None),
    }
}

/// What a store has, by three searches at most.
pub fn kind_of(home: &mut Home) -> Result<Kind, StoreFault>
    requires { IsReady home.old holding }
    ensures { IsReady home.new holding }
{
    let Some(last) = last_kind(home)? else {
        return Ok(Kind::Empty);
    };
    if last > LAST {
        return Ok(Kind::Plain);
    }
    if has_mark(home)? {
        Ok(Kind::Tables)
    } else {
        Ok(Kind::Plain)
    }
}
