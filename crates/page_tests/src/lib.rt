//! Tests of what `page_module` offers a page, through the public functions that it calls: registers, sheets and
//! names, dates of three columns, and dates of family trees.
#![tactic(auto)]

#[cfg(test)]
mod tests;
