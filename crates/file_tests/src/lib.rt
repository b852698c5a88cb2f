//! Of folders and the files in them, which calls are made of the system and in which order, each of
//! them failing, folders that are opened again, and what recovery says of what was left.
#![tactic(auto)]

#[cfg(test)]
mod tests;
