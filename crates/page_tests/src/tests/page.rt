//! `bw_page` and `bw_leaf`: pages, chains, splits and batches, the forward reading, and each public
//! call once with ample memory.
//!
//! Tables of steps, each walked to the first that goes otherwise than expected.

mod chains;
mod clock;
mod evicted;
mod leaf;
mod pages;
mod reading;

use bw_codec::Key;
use bw_page::Leaves;

/// Whether a record of this key is directed at this page.
fn leads(leaves: &Leaves, key: &str, page: u32) -> bool {
    match Key::new(key.as_bytes()) {
        Ok(key) => leaves.find(&key) == page,
        Err(_) => false,
    }
}
