//! What no clause of segments, the log, the cleaner and recovery says, tried from outside: that
//! calls succeed if memory is there, and the worked bytes.
#![tactic(auto)]

#[cfg(test)]
mod tests;
