//! A page while its blocks are read forwards.
//!
//! Between two blocks it may hold far more pairs than a page at rest: only what stands in the end
//! is judged. Few pairs stand in a row, as in a leaf, and more in a tree. So a record costs a
//! search, whatever the order of the keys is, and a Split what it takes off the end.

ghost use Rattle.std.specs.Prelude.{◌≡◌, IfOk, OnOk};
ghost use Rattle.std.specs.List.{fold};
ghost use Rattle.std.specs.Option.{option_map};
ghost use Rattle.bw_leaf.specs.Changed.{changed, all_changed};
ghost use Rattle.bw_leaf.specs.Forwards.{after, kept_below};

use crate::changes::empty_page;
use crate::room::fitted;
use crate::tree::{change_tree, row_of, split_tree, tree_of};
use crate::{changes, replay};
use bw_codec::{Block, Key, Leaf, Packed, Pairs, Value, ascend};
use std::alloc::AllocError;
use std::collections::BTreeMap;
use std::marker::Model;
use std::mem;

/// How many pairs stand in a row at most, before one more record. A page at rest has no more than
/// half of them, so what a store wrote is never read by a tree.
const FEW: usize = 64;

/// A page that is read forwards, however many pairs it has.
#[derive(Drop)]
pub struct Draft {
    /// The page; its pairs stand here if there is no tree.
    leaf: Leaf,
    /// All of its pairs, once they were too many for a row.
    tree: Option<BTreeMap<Key, Value>>,
}

impl Model for Draft {
    ghost use Rattle.bw_record.specs.declared.leaf.Leaf.{Leaf as LeafValue};

    ghost Value = { LeafValue };

    ghost use Rattle.bw_leaf.specs.Drafting.{leaf_of};

    ghost view = { leaf_of };
}

// The records of a Delta, if the page was set.
fn change_some(was: Option<Draft>, records: &[Packed]) -> Result<Option<Draft>, AllocError>
    ensures { IfOk result (λ draft. draft ≡ option_map (all_changed records.now) was) }
{
    match was {
        Some(draft) => Ok(Some(draft.change_all(records)?)),
        None => Ok(None),
    }
}

impl Draft {
    /// A page as it is. No memory is taken.
    pub fn of(leaf: Leaf) -> Draft
        ensures { result ≡ leaf }
    {
        Draft { leaf, tree: None }
    }

    /// The page as a leaf, in no more room than its pairs take. It takes memory if there are many
    /// pairs, whose refusal is the only error.
    pub fn into_leaf(self) -> Result<Leaf, AllocError>
        ensures { IfOk result (λ leaf. leaf ≡ self) }
    {
        let Draft { leaf, tree } = self;
        match tree {
            None => Ok(fitted(leaf)),
            Some(tree) => {
                let page = leaf.page;
                let (low, pairs) = leaf.into_parts();
                let mut row = row_of(pairs.into_vec(), tree)?;
                row.shrink_to_fit();
                Ok(Leaf {
                    page,
                    low,
                    pairs: Pairs::of(row),
                })
            }
        }
    }

    // This page, in a tree if one more pair would be too many for a row. A row whose keys do not
    // ascend is no lawful page's, and stays.
    fn spread(self) -> Result<Draft, AllocError>
        ensures { IfOk result (λ draft. draft ≡ self) }
    {
        let Draft { leaf, tree } = self;
        if tree.is_some() || leaf.pairs.as_slice().len() < FEW {
            return Ok(Draft { leaf, tree });
        }
        if !ascend(leaf.pairs.as_slice()) {
            return Ok(Draft { leaf, tree });
        }
        let page = leaf.page;
        let (low, pairs) = leaf.into_parts();
        let pairs = pairs.into_vec();
        let none = Vec::new(*pairs.allocator());
        let tree = tree_of(pairs)?;
        Ok(Draft {
            leaf: Leaf {
                page,
                low,
                pairs: Pairs::of(none),
            },
            tree: Some(tree),
        })
    }

    // The page after a record, where its pairs stand.
    fn change(self, change: &Packed) -> Result<Draft, AllocError>
        ensures { IfOk result (λ draft. draft ≡ changed change.now self) }
    {
        let Draft { leaf, tree } = self;
        match tree {
            None => {
                let mut leaf = leaf;
                changes::change_packed(&mut leaf, change)?;
                Ok(Draft { leaf, tree: None })
            }
            Some(tree) => {
                let mut tree = tree;
                change_tree(&mut tree, change)?;
                Ok(Draft {
                    leaf,
                    tree: Some(tree),
                })
            }
        }
    }

    /// The page after records, one after the other, whose bytes it then shares. A refused growth is
    /// the only error; the page is then dropped.
    pub fn change_all(self, records: &[Packed]) -> Result<Draft, AllocError>
        ensures { IfOk result (λ draft. draft ≡ all_changed records.now self) }
    {
        let mut draft = self;
        draft.apply_all(records)?;
        Ok(draft)
    }

    /// Changes the page by records, one after the other, where it stands: a page is large, and a
    /// row of pairs is nowhere moved to. Of a page at which memory was refused nothing is said.
    pub fn apply_all(&mut self, records: &[Packed]) -> Result<(), AllocError>
        ensures { OnOk result (self.new ≡ all_changed records.now self.old) }
    {
        for record in records {
            self.apply(record)?;
        }
        Ok(())
    }

    // The page after a record.
    pub(crate) fn apply(&mut self, change: &Packed) -> Result<(), AllocError>
        ensures { OnOk result (self.new ≡ changed change.now self.old) }
    {
        let Draft { leaf, tree } = self;
        match tree {
            None => {
                if leaf.pairs.as_slice().len() < FEW {
                    return changes::change_packed(leaf, change);
                }
                self.apply_spread(change)
            }
            Some(_) => self.apply_spread(change),
        }
    }

    // The page after a record, if the pairs stand in a tree or may have to.
    fn apply_spread(&mut self, change: &Packed) -> Result<(), AllocError>
        ensures { OnOk result (self.new ≡ changed change.now self.old) }
    {
        let none = Draft::of(empty_page(self.leaf.pairs.allocator()));
        let was = mem::replace(self, none);
        *self = was.spread()?.change(change)?;
        Ok(())
    }

    /// The page without its pairs from a key on. It is never refused.
    pub fn keep_below(self, separator: &[u8]) -> Draft
        ensures { result ≡ kept_below separator.now self }
    {
        let Draft { leaf, tree } = self;
        match tree {
            None => Draft {
                leaf: replay::keep_below(leaf, separator),
                tree: None,
            },
            Some(tree) => {
                let mut tree = tree;
                split_tree(&mut tree, separator);
                Draft {
                    leaf,
                    tree: Some(tree),
                }
            }
        }
    }

    /// What a page is after one more block, if it was `was` before; `None` if it was never set. A
    /// refused growth is the only error; page and block are then dropped.
    pub fn after(page: u32, was: Option<Draft>, block: Block) -> Result<Option<Draft>, AllocError>
        ensures { IfOk result (λ draft. draft ≡ after page was block) }
    {
        match block {
            Block::Delta {
                page: of,
                back: _,
                ops,
            } => {
                if of != page {
                    return Ok(was);
                }
                change_some(was, ops.as_slice())
            }
            Block::Base(leaf) => Ok(if leaf.page == page {
                Some(Draft::of(leaf))
            } else {
                was
            }),
            Block::Split {
                page: of,
                back: _,
                upper,
            } => {
                if upper.page == page {
                    return Ok(Some(Draft::of(upper)));
                }
                if of != page {
                    return Ok(was);
                }
                match was {
                    Some(draft) => Ok(Some(draft.keep_below(upper.low.as_slice()))),
                    None => Ok(None),
                }
            }
        }
    }

    /// What a page is after blocks, one after the other, if it was `was` before; `None` if it was
    /// never set. A refused growth is the only error.
    pub fn after_all(
        page: u32,
        was: Option<Draft>,
        blocks: Vec<Block>,
    ) -> Result<Option<Draft>, AllocError>
        ensures { IfOk result (λ draft. draft ≡ fold (after page) was blocks.items) }
    {
        let mut draft = was;
        for block in blocks {
            draft = Draft::after(page, draft, block)?;
        }
        Ok(draft)
    }
}
