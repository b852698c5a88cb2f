//! What one refused allocation leaves, for every public call from `bw_record` to `bw_drive` that
//! takes memory. `make memory` runs these tests beside a shim that refuses; `tools/surface.md` says
//! which call stands where.
#![tactic(auto)]

#[cfg(test)]
mod tests;
