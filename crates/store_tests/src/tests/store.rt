//! Calls on a core, and on a store with readers, as tables of steps: each is walked over both to
//! the first step that goes otherwise than expected.

mod boxes;
mod cleaning;
mod counting;
mod cutting;
mod evicting;
mod forgetting;
mod grouping;
mod large;
mod lives;
mod opening;
mod reopening;
mod rewriting;
mod settling;
mod spent;
mod steps;
mod stopping;
mod sweeps;
mod telling;
mod turning;
mod upgrading;
mod walking;
