//! Tests of `register_records` and `date_texts` through their public functions: a caller like any other, so that what is
//! proved of a test rests on the contracts alone.
#![tactic(auto)]

#[cfg(test)]
mod tests;
