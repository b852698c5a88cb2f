//! The first example of README: a store in the files of a folder, one thread, one writer.
#![tactic(auto)]

#[cfg(test)]
mod tests;
