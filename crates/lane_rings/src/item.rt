//! What goes through a lane, and what comes back when it cannot.

/// An item of a lane.
#[derive(Debug, Drop, Eq, PartialEq)]
pub enum Item<T> {
    /// What the lane is for.
    Entry(T),
    /// The sender is done, and nothing follows. The number is the one that it closed the lane with.
    End(u64),
    /// The sender gave up, and nothing follows.
    Stop,
}

/// How a lane ended.
#[derive(Clone, Copy, Debug, Eq, PartialEq)]
pub(crate) enum Mark {
    Counted(u64),
    Stopped,
}

/// The other end of the lane was dropped. What could not be sent is handed back in it.
#[derive(Debug, Drop, Eq, PartialEq)]
pub struct Gone<T> {
    pub value: T,
}
