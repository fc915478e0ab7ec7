//! Tests of `convert_sheet` through its public contract.
#![tactic(auto)]

#[cfg(test)]
mod tests;
