//! The pages of a log that was read.

use bw_log::PageAt;
use bw_page::Leaves;

/// All pages, where their blocks stand, and how many pairs the pages have.
#[derive(Drop)]
pub struct Pages {
    pub leaves: Leaves,
    pub table: Vec<PageAt>,
    pub pairs: u64,
}
