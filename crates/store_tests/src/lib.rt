//! What no clause of the store says, tried from outside: that its calls succeed if memory is there,
//! the worked bytes, and what readers see. Long scripts beside a map are `tests/program/drawn.py`.
#![tactic(auto)]

#[cfg(test)]
mod tests;
