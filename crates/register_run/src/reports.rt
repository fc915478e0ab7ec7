//! How a run ends.

ghost use Rattle.std.specs.Prelude.{◌≡◌};

use crate::ended_sources::Findings;
use crate::stripes::Stripe;
use register_records::{Setup, SourceEnd};
use std::snapshot::Snapshot;
use thiserror::Error;

/// Whether all sources of a run are whole.
#[derive(Clone, Copy, PartialEq, Eq, Debug)]
pub enum Verdict {
    /// Every source is whole, even where there is none.
    Complete,
    /// A source is broken.
    Incomplete,
}

/// The outputs and the ends of the sources of a run, each in the order of the sources.
#[derive(Drop)]
pub struct Report<W> {
    pub outputs: Vec<W>,
    pub ends: Vec<SourceEnd>,
    pub verdict: Verdict,
    /// How the threads of each source ran, in the order of the sources. Only clauses read it.
    pub ran: Vec<Ran>,
}

/// How the threads of a source ran: the setup that they were started by, and its converters with their lanes as they
/// were joined. Only clauses read it, and it takes no memory.
#[derive(Drop)]
pub struct Ran {
    pub(crate) setup: Snapshot<Setup>,
    pub(crate) stripes: Snapshot<Vec<Stripe>>,
    // What was found of its threads and its table.
    pub(crate) findings: Snapshot<Findings>,
}

/// Why a run did not begin: the first of these that applies.
#[derive(Clone, Copy, PartialEq, Eq, Debug, Error)]
pub enum RunFaultKind {
    /// There are more than 32 sources.
    #[error("there are more than 32 sources")]
    TooManySources,
    /// There are not as many outputs as sources.
    #[error("there are not as many outputs as sources")]
    OutputCount,
    /// A list that the run needs was refused its memory.
    #[error("out of memory")]
    NoMemory,
}

/// A run that did not begin. The sources and the outputs are handed back: no thread was started, and nothing was read
/// or written.
#[derive(Debug, Drop, Error)]
#[error("{kind}")]
pub struct RunFault<R, W> {
    pub kind: RunFaultKind,
    pub sources: Vec<R>,
    pub outputs: Vec<W>,
}

impl RunFaultKind {
    ghost use Rattle.register_run.specs.Reports.{run_fault_number};

    /// The number of the fault, from 1 for `TooManySources` to 3 for `NoMemory`.
    pub fn number(&self) -> u8
        ensures { result ≡ run_fault_number self.now }
    {
        match self {
            RunFaultKind::TooManySources => 1,
            RunFaultKind::OutputCount => 2,
            RunFaultKind::NoMemory => 3,
        }
    }
}
