//! How the dates of each calendar are written.

/// How the dates of a calendar are written.
#[derive(Clone, Copy, PartialEq, Eq)]
pub enum Grammar {
    /// A year, a month and a day: `1945-11-12`.
    Civil,
    /// A year, a week and a weekday: `2004-W53-6`.
    Week,
    /// The places of a long count: `9.12.11.5.18`.
    LongCount,
    /// A year, a month and the Roman name of a day: `1945-11-K3`.
    Roman,
}
