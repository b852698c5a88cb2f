//! A user as bytes: a record of the table `users`, and a key of its index `names`.

use anyhow::{Result, bail, ensure};
use bw_rows::RowKey;
use std::alloc::Global;
use std::str;

/// A user. The name has no zero byte, and at most 119 bytes: the index has room for those.
#[derive(Clone, Copy)]
pub struct User<'a> {
    pub name: &'a str,
    pub city: &'a str,
}

impl<'a> User<'a> {
    /// The user of a record, which is NAME 00 CITY.
    pub fn read(record: &'a [u8]) -> Result<User<'a>> {
        let text = str::from_utf8(record)?;
        match text.split_once('\0') {
            Some((name, city)) => Ok(User { name, city }),
            None => bail!("this is no user's record"),
        }
    }

    /// The record of a user.
    pub fn record(&self, alloc: Global) -> Result<Vec<u8>> {
        joined(alloc, self.name, self.city.as_bytes())
    }
}

/// The key of the user of this number. Its highest byte is the first, so that the order of keys is
/// that of numbers.
pub fn user_key(number: u32) -> Result<RowKey> {
    Ok(RowKey::new(&number.to_be_bytes())?)
}

/// What the keys in the index of all users of this name begin with: NAME 00.
pub fn name_front(alloc: Global, name: &str) -> Result<RowKey> {
    Ok(RowKey::new(joined(alloc, name, &[])?.as_slice())?)
}

/// The key of a user in the index: NAME 00 NUMBER. Users of one name have a key each.
pub fn name_key(alloc: Global, name: &str, number: u32) -> Result<RowKey> {
    let key = joined(alloc, name, &number.to_be_bytes())?;
    Ok(RowKey::new(key.as_slice())?)
}

/// The number at the end of a key in the index.
pub fn number_in(key: &RowKey) -> Result<u32> {
    match key.as_slice() {
        [.., a, b, c, d] => Ok(u32::from_be_bytes([*a, *b, *c, *d])),
        _ => bail!("this is no key of the index"),
    }
}

// A name, a zero, and what follows it.
fn joined(alloc: Global, name: &str, rest: &[u8]) -> Result<Vec<u8>> {
    ensure!(!name.as_bytes().contains(&0), "a name has no zero byte");
    let mut bytes = Vec::new(alloc);
    bytes.extend_from_slice(name.as_bytes())?;
    bytes.push(0)?;
    bytes.extend_from_slice(rest)?;
    Ok(bytes)
}
