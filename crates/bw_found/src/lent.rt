//! Pages by records and pairs that stay where they lie.

ghost use Rattle.std.specs.Prelude.{◌≡◌, [], Some, List, IfOk, OnOk};
ghost use Rattle.bw_record.specs.declared.record.Record.{Record};
ghost use Rattle.std.specs.Option.{option_map};
ghost use Rattle.bw_codec.specs.Lent.{record_of};
ghost use Rattle.bw_leaf.specs.Changed.{Pairs, changed, all_changed};
ghost use Rattle.bw_found.specs.Lent.{AreOps, ArePairs, ops_into, pairs_into};

use bw_codec::{Low, lent_op, lent_pair};
use bw_leaf::{HollowDraft, HollowPage};
use std::alloc::{AllocError, Global};

// The page after a record: a put of this value, or a delete.
fn apply(
    alloc: Global,
    draft: &mut HollowDraft,
    key: &[u8],
    value: Option<&[u8]>,
) -> Result<(), AllocError>
    ensures { OnOk result (draft.new
        ≡ changed (record_of key.now (option_map (λ v. v.now) value.entry)) draft.old) }
{
    match value {
        Some(value) => draft.put(alloc, key, value),
        None => draft.delete(alloc, key),
    }
}

// The page after so many records at the front of the bytes.
#[tactic(auto, unfolding(crate::specs::Lent::ops_into))]
fn change_each(
    alloc: Global,
    draft: &mut HollowDraft,
    version: u16,
    count: u16,
    bytes: &[u8],
) -> Result<(), AllocError>
    ensures { OnOk result (ops_into version draft.old count bytes.now ≡ Some draft.new) }
{
    let mut rest = bytes;
    for _i in 0..count {
        let Ok((key, value, behind)) = lent_op(version, rest) else {
            return Err(AllocError);
        };
        apply(alloc, draft, key, value)?;
        rest = behind;
    }
    Ok(())
}

/// The page after so many records at the front of the bytes, which are known to be lawful in this
/// format. A refused growth is the only error; nothing is said of the page after it.
pub(crate) fn change_by(
    alloc: Global,
    draft: &mut HollowDraft,
    version: u16,
    count: u16,
    bytes: &[u8],
) -> Result<(), AllocError>
    ensures { (ops : List Record) → AreOps version count bytes.now ops
        → OnOk result (draft.new ≡ all_changed ops draft.old) }
{
    change_each(alloc, draft, version, count, bytes)
}

// A page with so many pairs at the front of the bytes after those that it has.
#[tactic(auto, unfolding(crate::specs::Lent::pairs_into))]
fn push_each(
    page: &mut HollowPage,
    version: u16,
    count: u16,
    bytes: &[u8],
) -> Result<(), AllocError>
    ensures { OnOk result (pairs_into version page.old count bytes.now ≡ Some page.new) }
{
    let mut rest = bytes;
    for _i in 0..count {
        let Ok((key, value, behind)) = lent_pair(version, rest) else {
            return Err(AllocError);
        };
        page.push(key, value)?;
        rest = behind;
    }
    Ok(())
}

/// A page with so many pairs at the front of the bytes, which are known to be lawful in this
/// format. A refused growth is the only error.
pub(crate) fn page_of(
    alloc: Global,
    version: u16,
    page: u32,
    low: Low,
    count: u16,
    bytes: &[u8],
) -> Result<HollowPage, AllocError>
    ensures { (pairs : Pairs) → ArePairs version count bytes.now pairs
        → IfOk result (λ leaf. leaf ≡ record { page = page; low = low; pairs = pairs }) }
{
    let mut leaf = HollowPage::empty(alloc, page, low);
    push_each(&mut leaf, version, count, bytes)?;
    Ok(leaf)
}
