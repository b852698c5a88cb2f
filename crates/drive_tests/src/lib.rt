//! What no clause of a run of writers says, tried from outside: that writers run at once, that
//! records are accepted and taken if memory is there, and that nothing follows a refusal. And of
//! the program, that its lines are read in so many reads.
#![tactic(auto)]

#[cfg(test)]
mod tests;
