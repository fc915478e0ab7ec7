//! Tests of the crates of calendars and of the church year through their public functions, a module for each crate:
//! callers like any other, so that what is proved of a test rests on the contracts alone.
#![tactic(auto)]

#[cfg(test)]
mod tests;
