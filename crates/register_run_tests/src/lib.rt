//! Tests of `register_run` and of lanes, on one thread and between threads, through public functions: a caller like any
//! other, so that what is proved of a test rests on the contracts alone.
#![tactic(auto)]

#[cfg(test)]
mod tests;
