//! The last block of each page, asked of the log.
//!
//! A block of a page links back to the one before, so the next one has to know where that is: the
//! log's last one, or one in the frame in the making. A cleaning writes pages again behind the
//! store's back, and then all places are asked of the log anew. A link to an older block would lead
//! recovery past the page that the cleaning wrote.

ghost use Rattle.std.specs.Prelude.{◌≡◌, ◌≤◌, ◌<◌, ◌+◌, ◌-◌, ◌^◌, None, ℕ, length, vec_len, slice_get, IfOk};
ghost use Rattle.bw_log.specs.Contents.{counted};
ghost use Rattle.bw_log.specs.Places.{place_of};
ghost use Rattle.bw_care.specs.Views.{seen, IsSound};

use bw_codec::Place;
use bw_log::Log;
use std::alloc::{AllocError, Global};

/// So many places, of which none is right until `renew` has noted them.
pub fn blank_places(alloc: Global, pages: usize) -> Result<Vec<Place>, AllocError>
    ensures { IfOk result (λ places. length places.items ≡ pages) }
{
    let mut places = Vec::with_capacity(alloc, pages)?;
    'pages: for _ in 0..pages {
        places.push_reserved(Place { frame: 1, index: 0 });
    }
    Ok(places)
}

/// Notes the last block of each page as the log has it. Nothing waits in the frame in the making.
pub fn renew(newest: &mut Vec<Place>, log: &Log)
    requires sound { IsSound log.now holding }
    requires count { length newest.old.items < 2 ^ 32 }
    requires there { (p : ℕ) → 1 ≤ p → p ≤ length newest.old.items
        → place_of p (counted (seen log.now holding)) ≡ None → ⊥ }
    ensures count { length newest.new.items ≡ length newest.old.items }
    ensures each { (p : ℕ) → 1 ≤ p → p ≤ length newest.old.items
        → slice_get newest.new.items (p - 1) ≡ place_of p (counted (seen log.now holding)) }
{
    let pages = newest.as_slice().len();
    'pages: for at in 0..pages {
        renew_at(newest, log, at);
    }
}

// Notes the last block of one page as the log has it.
fn renew_at(newest: &mut Vec<Place>, log: &Log, at: usize)
    requires sound { IsSound log.now holding }
    requires few { at + 1 < 2 ^ 32 }
    requires inside { at < length newest.old.items }
    requires there { place_of (at + 1) (counted (seen log.now holding)) ≡ None → ⊥ }
    ensures len { vec_len newest.new ≡ vec_len newest.old }
    ensures count { length newest.new.items ≡ length newest.old.items }
    ensures at { slice_get newest.new.items at
        ≡ place_of (at + 1) (counted (seen log.now holding)) }
    ensures others { (i : ℕ) → (i ≡ at → ⊥)
        → slice_get newest.new.items i ≡ slice_get newest.old.items i }
{
    let Some(place) = log.place_of(at as u32 + 1) else {
        unreachable!();
    };
    let _ = newest.as_slice().len(); // For the proof.
    newest[at] = place;
}
