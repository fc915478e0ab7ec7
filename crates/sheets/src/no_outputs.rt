//! No output.

ghost use Rattle.std.specs.Prelude.{None, true};

use register_records::{Output, OutputFault};

/// An output that takes nothing, where none is wanted.
#[derive(Drop)]
pub(crate) struct NoOutput;

impl Output for NoOutput {
    ghost contents = { λ o. None };

    ghost has_failed = { λ o. true };

    ghost is_flushed = { λ o. true };

    ghost own_mark = { λ o. 0 };

    fn offer(&mut self, _bytes: &[u8]) -> Result<usize, OutputFault> {
        Err(OutputFault)
    }

    fn flush_out(&mut self) -> Result<(), OutputFault> {
        Err(OutputFault)
    }

    fn mark(&self) -> u32 {
        0
    }
}
