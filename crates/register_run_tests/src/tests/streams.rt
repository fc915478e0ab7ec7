//! Readers that take no memory, and a writer that keeps none.

use std::io;
use std::io::{ErrorKind, Read, Write};
use std::sync::atomic::{AtomicU64, Ordering};

/// What goes wrong with the reads of a text.
#[derive(Clone, Copy)]
pub enum ReadFault {
    Nothing,
    /// The read of this number, from 1, fails.
    At(u32),
    /// What comes behind the text cannot be read.
    Behind,
    /// Each second read, from the first on, is interrupted.
    Interrupted,
}

/// A reader of a text: a front, and behind it the same lines so many times. Each of these begins with a read of its own,
/// but where they are joined.
#[derive(Drop)]
pub struct Text<'a> {
    rest: &'a [u8],
    more: &'a [u8],
    left: u32,
    is_joined: bool,
    // The most bytes of a read.
    most: usize,
    fault: ReadFault,
    reads: u32,
}

impl<'a> Text<'a> {
    pub fn new(front: &'a [u8], more: &'a [u8], left: u32) -> Text<'a> {
        Text {
            rest: front,
            more,
            left,
            is_joined: false,
            most: usize::MAX,
            fault: ReadFault::Nothing,
            reads: 0,
        }
    }

    /// The same with at most so many bytes by each read, and with this fault.
    pub fn read_by(self, most: usize, fault: ReadFault) -> Text<'a> {
        Text {
            most,
            fault,
            ..self
        }
    }

    /// The same where one read may give the front and what is behind it.
    pub fn joined(self) -> Text<'a> {
        Text {
            is_joined: true,
            ..self
        }
    }

    /// Begins what is next, where all that was begun was given.
    fn begin_next(&mut self) {
        if self.rest.is_empty() && self.left > 0 {
            self.rest = self.more;
            self.left = self.left.saturating_sub(1);
        }
    }

    /// Whether all that was begun was given.
    pub fn is_between(&self) -> bool {
        self.rest.is_empty()
    }

    /// Why this read fails, if it does.
    fn fault_of_read(&self) -> Option<ErrorKind> {
        match self.fault {
            ReadFault::At(number) if self.reads == number => Some(ErrorKind::Other),
            ReadFault::Behind if self.rest.is_empty() && self.left == 0 => {
                Some(ErrorKind::BrokenPipe)
            }
            ReadFault::Interrupted if self.reads % 2 == 1 => Some(ErrorKind::Interrupted),
            _ => None,
        }
    }
}

impl Read for Text<'_> {
    fn read(&mut self, buf: &mut [u8]) -> io::Result<usize> {
        self.reads = self.reads.saturating_add(1);
        if let Some(kind) = self.fault_of_read() {
            return Err(io::Error::from(kind));
        }
        self.begin_next();
        let most = buf.len().min(self.most);
        let count = self.rest.read(&mut buf[..most])?;
        if !self.is_joined {
            return Ok(count);
        }
        self.begin_next();
        let more = self.rest.read(&mut buf[count..most])?;
        Ok(count + more)
    }
}

/// A writer that keeps nothing. It counts its bytes, and its calls after the first, which is that of the heading.
#[derive(Drop)]
pub struct Counter<'a> {
    has_heading: bool,
    rows: &'a AtomicU64,
    bytes: &'a AtomicU64,
}

impl<'a> Counter<'a> {
    pub fn new(rows: &'a AtomicU64, bytes: &'a AtomicU64) -> Counter<'a> {
        Counter {
            has_heading: false,
            rows,
            bytes,
        }
    }
}

impl Write for Counter<'_> {
    fn write(&mut self, buf: &[u8]) -> io::Result<usize> {
        if self.has_heading {
            self.rows.fetch_add(1, Ordering::SeqCst);
        }
        self.has_heading = true;
        self.bytes.fetch_add(buf.len() as u64, Ordering::SeqCst);
        Ok(buf.len())
    }

    fn flush(&mut self) -> io::Result<()> {
        Ok(())
    }
}
