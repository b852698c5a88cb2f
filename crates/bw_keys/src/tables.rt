//! Whether a folder has tables, which have a mark among its pairs.

ghost use Rattle.bw_care.specs.Found.{IsRecovered};
ghost use Rattle.std.specs.Prelude.{◌≡◌};
ghost use Rattle.bw_home.specs.Ready.{IsReady};

use crate::fault::KeysFault;
use bw_care::{RecoverCause, Recovered};
use bw_home::Home;
use bw_rows::mark_key;

/// Whether the pairs of a store are those of tables: their mark has no byte.
pub fn has_tables(home: &mut Home) -> Result<bool, KeysFault>
    requires { IsReady home.old holding }
    ensures ready { IsReady home.new holding }
    ensures feeds { home.new.feeds ≡ home.old.feeds }
{
    match home.get(&mark_key())? {
        Some(value) => Ok(value.as_slice().is_empty()),
        None => Ok(false),
    }
}

/// Whether pages have the mark of tables.
pub(crate) fn have_tables(pages: &mut Recovered) -> Result<bool, RecoverCause>
    requires { IsRecovered (λ b. holding (b.vtable, b.value)) pages.old }
    ensures { IsRecovered (λ b. holding (b.vtable, b.value)) pages.new }
{
    match pages.get(&mark_key())? {
        Some(value) => Ok(value.as_slice().is_empty()),
        None => Ok(false),
    }
}
