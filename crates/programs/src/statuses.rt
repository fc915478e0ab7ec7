//! The exit statuses of a program.

/// All texts or sheets were converted, what is refused in them included, or a page was printed.
pub const COMPLETE: u8 = 0;

/// A text or a sheet broke off, or a page could not be printed.
pub const INCOMPLETE: u8 = 1;

/// Something is wrong with the arguments.
pub const REFUSED: u8 = 2;

/// A file could not be opened or made, or memory ran out before anything was converted.
pub const NOT_BEGUN: u8 = 3;
