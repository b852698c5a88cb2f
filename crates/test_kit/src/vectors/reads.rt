//! Reads of one key whose values rise.

use bw_codec::Value;

/// How many of so many reads were refused or went back.
pub fn gone_back<E: Drop, F: FnMut() -> Result<Option<Value>, E>>(times: u32, mut read: F) -> u32
    requires { F.IsAlwaysCallable read }
{
    let mut last: Option<Value> = None;
    let mut wrong = 0u32;
    for _ in 0..times {
        match read() {
            Ok(Some(value)) => {
                if let Some(old) = &last {
                    wrong = wrong.saturating_add(u32::from(value.as_slice() < old.as_slice()));
                }
                last = Some(value);
            }
            Ok(None) => wrong = wrong.saturating_add(u32::from(last.is_some())),
            Err(_fault) => wrong = wrong.saturating_add(1),
        }
    }
    wrong
}
