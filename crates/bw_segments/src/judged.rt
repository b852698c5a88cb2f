//! What recovery says of segments, in numbers.

ghost use Rattle.bw_care.specs.Found.{IsRecovered};

use bw_beside::{Ask, ask_images};
use bw_care::Recovered;
use bw_codec::Leaf;
use bw_home::Found;
use bw_look::Image;
use bw_words::Miss;
use std::alloc::{AllocError, Global};

/// What recovery says of segments.
#[derive(Drop)]
pub struct Judged {
    pub found: Found,
    /// How many pages there are.
    pub pages: u64,
    /// How many pairs they have.
    pub pairs: u64,
    /// How many bytes the Base of each page would have, from page 1 on.
    pub lengths: Vec<u64>,
    /// How many pages have no pair, how many have one, and so on, up to the most that a page has.
    pub fills: Vec<u64>,
}

/// How many bytes a page has as a Base: a pair is its key and value, with one byte for the length
/// of the key and two for that of the value.
fn base_length(leaf: &Leaf) -> u64 {
    let mut length = 8 + leaf.low.as_slice().len() as u64;
    for pair in leaf.pairs.as_slice() {
        let cells = 3 + pair.key().len() as u64 + pair.value().len() as u64;
        length = length.saturating_add(cells);
    }
    length
}

impl Judged {
    /// The numbers of the log, and none yet of a page.
    fn of(pages: &Recovered, alloc: Global) -> Result<Judged, AllocError>
        requires { IsRecovered (λ b. holding (b.vtable, b.value)) pages.now }
    {
        let mut fills = Vec::new(alloc);
        fills.resize(usize::from(pages.leaves.limit()).saturating_add(1), 0)?;
        Ok(Judged {
            found: Found::of(pages),
            pages: u64::from(pages.leaves.count()),
            pairs: pages.pairs,
            lengths: Vec::new(alloc),
            fills,
        })
    }

    /// Counts the next page.
    fn note(&mut self, leaf: &Leaf) -> Result<(), AllocError> {
        self.lengths.push(base_length(leaf))?;
        if let Some(pages) = self.fills.get_mut(leaf.pairs.as_slice().len()) {
            *pages = pages.saturating_add(1);
        }
        Ok(())
    }
}

/// The numbers of all pages. Each is read from its log, and none stays.
fn judge_pages(alloc: Global, pages: Recovered) -> Result<Judged, Miss>
    requires { IsRecovered (λ b. holding (b.vtable, b.value)) pages }
{
    let mut pages = pages;
    let mut judged = Judged::of(&pages, alloc)?;
    'pages: for index in 0..pages.leaves.count() {
        if let Some(leaf) = pages.page(index.saturating_add(1))? {
            judged.note(&leaf)?;
        }
    }
    Ok(judged)
}

/// The numbers of segments are asked.
#[derive(Drop)]
struct Numbers {
    alloc: Global,
}

impl<W> Ask<W> for Numbers {
    type Answer = Result<Judged, Miss>;

    fn ask(&mut self, pages: Recovered, _watch: &mut W) -> Result<Judged, Miss> {
        judge_pages(self.alloc, pages)
    }
}

/// What recovery says of copies of these segments.
pub fn judge(alloc: Global, images: &[Image]) -> Result<Judged, Miss> {
    ask_images(alloc, images, &mut Numbers { alloc }, &mut ())?
}
