//! Readers and outputs for tests: over memory, with bytes that proofs know, and with a fault at a chosen call.

ghost use Rattle.std.specs.Prelude.{◌≡◌, ◌≤◌, [], Some, false, IfOk, vec_capacity};

use crate::outputs::{Output, OutputFault};
use std::alloc::{AllocError, Global};
use std::io;
use std::io::{ErrorKind, Read};

/// A reader that gives one chunk for each read, a longer one in pieces, and then the end.
#[derive(Drop)]
pub struct Chunks {
    chunks: Vec<Vec<u8>>,
    // The chunk that is next, and how much of it was given.
    next: usize,
    given: usize,
    reads: u32,
    fail_read: u32,
}

impl Chunks {
    ghost use Rattle.register_records.specs.Faults.{bytes_to_come, chunk_bytes};

    /// The reader of these chunks. Its read of the number `fail_read`, from 1, is a fault of the kind `Other`; with 0
    /// none is.
    pub fn new(chunks: Vec<Vec<u8>>, fail_read: u32) -> Chunks
        ensures { bytes_to_come result ≡ chunk_bytes chunks.items }
    {
        Chunks {
            chunks,
            next: 0,
            given: 0,
            reads: 0,
            fail_read,
        }
    }
}

impl Read for Chunks {
    ghost use Rattle.register_records.specs.Faults.{bytes_to_come};

    ghost remaining = { λ r. Some (bytes_to_come r) };

    fn read(&mut self, buf: &mut [u8]) -> io::Result<usize> {
        self.reads = self.reads.saturating_add(1);
        if self.reads == self.fail_read {
            return Err(io::Error::from(ErrorKind::Other));
        }
        'spent: while self.next < self.chunks.len() {
            let chunk = self.chunks[self.next].as_slice();
            if self.given < chunk.len() {
                let count = buf.len().min(chunk.len() - self.given);
                buf[..count].copy_from_slice(&chunk[self.given..self.given + count]);
                self.given += count;
                return Ok(count);
            }
            self.next += 1;
            self.given = 0;
        }
        Ok(0)
    }
}

/// An output over memory, which it takes at once: so many bytes at most, and so many of them by one offer.
#[derive(Drop)]
pub struct Sink {
    bytes: Vec<u8>,
    room: usize,
    most: usize,
    fail_write: u32,
    fail_flush: u32,
    writes: u32,
    flushes: u32,
    mark: u32,
    failed: bool,
    flushed: bool,
    ghost reserved: { room ≤ vec_capacity bytes },
}

impl Sink {
    /// An empty output with the mark `mark` and with room for `room` bytes, which takes at most `most` bytes by one
    /// offer. Its offer of the number `fail_write` and its flush of the number `fail_flush`, each from 1, is a fault;
    /// with 0 none is.
    ///
    /// # Errors
    ///
    /// Running out of memory alone.
    pub fn new(
        alloc: Global,
        mark: u32,
        room: usize,
        fail_write: u32,
        fail_flush: u32,
        most: usize,
    ) -> Result<Sink, AllocError>
        ensures fresh { IfOk result (λ s. (s.bytes.items ≡ []) × (s.failed ≡ false)) }
        ensures mark { IfOk result (λ s. s.mark ≡ mark) }
    {
        Ok(Sink {
            bytes: Vec::with_capacity(alloc, room)?,
            room,
            most,
            fail_write,
            fail_flush,
            writes: 0,
            flushes: 0,
            mark,
            failed: false,
            flushed: false,
        })
    }

    /// The bytes that it took.
    pub fn bytes(&self) -> &[u8]
        ensures { result.now ≡ self.now.bytes.items }
    {
        self.bytes.as_slice()
    }

    /// Whether it has failed: a call returned a fault, or an offer of some bytes took none.
    pub fn has_failed(&self) -> bool
        ensures { result ≡ self.now.failed }
    {
        self.failed
    }
}

impl Output for Sink {
    ghost contents = { λ s. Some s.bytes.items };

    ghost has_failed = { λ s. s.failed };

    ghost is_flushed = { λ s. s.flushed };

    ghost own_mark = { λ s. s.mark };

    fn offer(&mut self, bytes: &[u8]) -> Result<usize, OutputFault> {
        self.flushed = false;
        self.writes = self.writes.saturating_add(1);
        if self.writes == self.fail_write {
            self.failed = true;
            return Err(OutputFault);
        }
        let left = self.room.saturating_sub(self.bytes.len());
        let count = bytes.len().min(self.most).min(left);
        self.bytes.extend_from_slice(&bytes[..count]).unwrap();
        if count == 0 && !bytes.is_empty() {
            self.failed = true;
        }
        Ok(count)
    }

    fn flush_out(&mut self) -> Result<(), OutputFault> {
        self.flushes = self.flushes.saturating_add(1);
        if self.flushes == self.fail_flush {
            self.failed = true;
            return Err(OutputFault);
        }
        self.flushed = true;
        Ok(())
    }

    fn mark(&self) -> u32 {
        self.mark
    }
}
