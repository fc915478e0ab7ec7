//! The built-in list of names, in three parts, which check/built-names writes from names.csv.

mod first;
mod second;
mod third;

pub use first::NAMES as FIRST_NAMES;
pub use second::NAMES as SECOND_NAMES;
pub use third::NAMES as THIRD_NAMES;
