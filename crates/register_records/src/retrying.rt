//! A reader that tries an interrupted read again.

ghost use Rattle.std.specs.Prelude.{◌≡◌};

use std::io;
use std::io::{ErrorKind, Read};

/// Reads as the reader in it does; a read that was interrupted, as by a signal, is tried again.
#[derive(Drop)]
pub(crate) struct Retrying<R> {
    inner: R,
}

impl<R: Read> Retrying<R> {
    /// A reader over `inner`.
    pub(crate) fn new(inner: R) -> Retrying<R>
        ensures { result.inner ≡ inner }
    {
        Retrying { inner }
    }
}

impl<R: Read> Read for Retrying<R> {
    ghost remaining = { λ r. R.remaining r.inner };

    fn read(&mut self, buf: &mut [u8]) -> io::Result<usize> {
        'tries: for _ in 0..u64::MAX {
            match self.inner.read(buf) {
                Ok(n) => return Ok(n),
                Err(e) => {
                    if e.kind() != ErrorKind::Interrupted {
                        return Err(e);
                    }
                }
            }
        }
        Err(io::Error::from(ErrorKind::Interrupted))
    }
}
