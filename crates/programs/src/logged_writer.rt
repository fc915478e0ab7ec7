//! A writer that logs what it writes. The log stands in clauses alone, and takes no memory.

ghost use Rattle.std.specs.Prelude.{◌≡◌, ℕ, List, [], ◌++◌, Some};
ghost use Rattle.std.specs.Borrow.{ftrue};
ghost use Rattle.std.specs.Io.KnownBytes.{Appends};

use std::io;
use std::io::Write;
use std::marker::{Model, PhantomData};
use std::snapshot::Snapshot;

/// Bytes that only clauses read.
#[derive(Drop)]
pub struct Log {
    marker: PhantomData<u8>,
    pub ghost bytes: { List ℕ },
}

impl Model for Log {
    ghost also_owns = { λ _. ftrue };
}

impl Log {
    /// A log of no bytes.
    fn new() -> Log
        ensures { result.bytes ≡ [] }
    {
        Log {
            marker: PhantomData,
        }
    }

    /// Adds bytes to the log.
    #[inline(always)]
    fn add(&mut self, _bytes: &[u8])
        ensures { self.new.bytes ≡ self.old.bytes ++ _bytes.now }
    {}
}

/// A writer that logs the bytes that the writer in it has taken since it was wrapped: of each write that returns `Ok(n)`
/// the first n bytes that were offered. Where the bytes of the writer in it are known, it has gained just these.
#[derive(Drop)]
pub struct LoggedWriter<W: Write> {
    inner: W,
    // The writer as it was wrapped, and the log.
    was: Snapshot<W>,
    log: Log,
    ghost logged: { ∥ Appends (W.contents was.value) (W.contents inner) log.bytes ∥₁ },
}

impl<W: Write> LoggedWriter<W> {
    ghost use Rattle.programs.specs.LoggedWriters.{logged_bytes, inner_of};

    /// A writer over `inner`, which has taken nothing yet.
    pub fn new(inner: W) -> LoggedWriter<W>
        ensures none { logged_bytes result ≡ [] }
        ensures inner { inner_of result ≡ inner }
    {
        let was = Snapshot::of(&inner);
        LoggedWriter {
            inner,
            was,
            log: Log::new(),
        }
    }

    /// The writer in it.
    pub fn into_inner(self) -> W
        ensures { result ≡ inner_of self }
    {
        self.inner
    }
}

impl<W: Write> Write for LoggedWriter<W> {
    ghost contents = { λ writer. Some writer.log.bytes };

    fn write(&mut self, buf: &[u8]) -> io::Result<usize> {
        let taken = self.inner.write(buf);
        if let Ok(n) = taken {
            self.log.add(&buf[..n]);
        }
        taken
    }

    fn flush(&mut self) -> io::Result<()> {
        self.inner.flush()
    }
}
