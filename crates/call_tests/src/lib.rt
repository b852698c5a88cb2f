//! Steps of tables in a home, and what is left there after them.
#![tactic(auto)]

#[cfg(test)]
mod tests;
