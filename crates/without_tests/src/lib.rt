//! That the public calls which take no memory ask for none: each allocation is refused while they
//! run. `make memory` runs these tests beside a shim that does so; `tools/surface.md` says which
//! call stands where.
#![tactic(auto)]

#[cfg(test)]
mod tests;
