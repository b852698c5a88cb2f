//! Tests of records, pages and versions from outside: the worked bytes of `docs/FORMAT.md`, threads
//! beside one another, and each public call once if memory is there.
#![tactic(auto)]

#[cfg(test)]
mod tests;
