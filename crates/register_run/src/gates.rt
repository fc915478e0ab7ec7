//! What converters pass with every entry.

use std::sync::Wait;

/// What each converter passes after it took an entry and before it sends the row of it.
///
/// A gate holds converters up or watches them, as tests do. It has no part in what is written.
pub trait Gate {
    /// Lets the converter of the entry with this number, from 1, go on. It may wait.
    fn pass<T: Wait>(&self, rt: &T, number: u32);
}

/// The gate that lets every entry through at once.
#[derive(Clone, Copy, Debug)]
pub struct Open;

impl Gate for Open {
    fn pass<T: Wait>(&self, _rt: &T, _number: u32) {}
}
