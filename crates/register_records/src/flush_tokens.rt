//! The token of a flush.

ghost use Rattle.std.specs.Prelude.{◌≡◌, IfOk};
ghost use Rattle.std.specs.Io.KnownBytes.{Keeps};

use std::io;
use std::io::Write;
use std::snapshot::Snapshot;

/// That a writer was flushed, as the writer was then. Only `flush_with_token` makes one, and it has no bytes.
pub(crate) struct FlushToken<W> {
    writer: Snapshot<W>,
}

impl<W> Drop for FlushToken<W> {
    fn drop(self) {
        let FlushToken { writer: _ } = self;
    }
}

/// Flushes a writer.
///
/// # Errors
///
/// The fault of the flush.
pub(crate) fn flush_with_token<W: Write>(writer: &mut W) -> io::Result<FlushToken<W>>
    ensures bytes { Keeps (W.contents writer.old) (W.contents writer.new) }
    ensures writer { IfOk result (λ token. token.writer.value ≡ writer.new) }
{
    writer.flush()?;
    Ok(FlushToken {
        writer: Snapshot::of(writer),
    })
}
