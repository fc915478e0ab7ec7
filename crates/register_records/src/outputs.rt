//! Where the bytes of a table go.

ghost use Rattle.std.specs.Prelude.{◌≡◌, ◌≤◌, ◌||◌, true, false, ℕ, Bool, List, Option, length, take, IfOk, OnOk};
ghost use Rattle.std.specs.Prelude.{IfSome, OnErr, is_err};
ghost use Rattle.std.specs.Io.KnownBytes.{Appends, Keeps};
ghost use Rattle.std.specs.Option.{is_some};
ghost use Rattle.std.proofs.Props.{props};
ghost use Rattle.register_records.specs.Outputs.{offer_failed};

use crate::flush_tokens::{FlushToken, flush_with_token};
use std::io::{ErrorKind, Write};

/// An output did not take bytes, or did not hand them on.
#[derive(Clone, Copy, PartialEq, Eq, Debug)]
pub struct OutputFault;

/// Where the bytes of a table go.
///
/// An output has failed from its first fault on, or from the first offer of some bytes that took none,
/// and not before. After a fault nothing is said of its bytes.
pub trait Output {
    // The bytes that the output holds, where they are known.
    ghost contents: { Self → Option (List ℕ) };

    // A call returned a fault, or an offer of some bytes took none.
    ghost has_failed: { Self → Bool };

    // What was taken was handed on.
    ghost is_flushed: { Self → Bool };

    // The mark, which no call changes.
    ghost own_mark: { Self → ℕ };

    /// Offers bytes, and returns how many of them, from the first on, were taken.
    ///
    /// # Errors
    ///
    /// `OutputFault` where the output has failed.
    fn offer(&mut self, bytes: &[u8]) -> Result<usize, OutputFault>
        ensures bound { IfOk result (λ k. k ≤ length bytes.now) }
        ensures bytes { IfOk result (λ k. Appends (contents self.old) (contents self.new) (take k bytes.now)) }
        ensures fails { has_failed self.new ≡ (has_failed self.old || offer_failed result bytes.now) }
        ensures mark { own_mark self.new ≡ own_mark self.old };

    /// Hands on what was taken, and takes nothing.
    ///
    /// # Errors
    ///
    /// `OutputFault` where the output has failed.
    fn flush_out(&mut self) -> Result<(), OutputFault>
        ensures bytes { OnOk result (Keeps (contents self.old) (contents self.new)) }
        ensures flushed { OnOk result (is_flushed self.new ≡ true) }
        ensures fails { has_failed self.new ≡ (has_failed self.old || is_err result) }
        ensures mark { own_mark self.new ≡ own_mark self.old };

    /// The mark that the output was made with.
    fn mark(&self) -> u32
        ensures { result ≡ own_mark self.now };
}

/// Offers bytes until all are taken, and flushes them.
pub fn send<W: Output>(output: &mut W, bytes: &[u8]) -> Result<(), OutputFault>
    ensures ok { OnOk result (Appends (W.contents output.old) (W.contents output.new) bytes.now) }
    ensures flushed { OnOk result (W.is_flushed output.new ≡ true) }
    ensures goes { OnOk result (W.has_failed output.new ≡ W.has_failed output.old) }
    ensures fails { OnErr result (W.has_failed output.new ≡ true) }
    ensures mark { W.own_mark output.new ≡ W.own_mark output.old }
{
    let mut sent = 0;
    'offers: while sent < bytes.len() {
        let n = output.offer(&bytes[sent..])?;
        if n == 0 {
            return Err(OutputFault);
        }
        sent += n;
    }
    output.flush_out()
}

/// An output over a writer: it holds what the writer holds.
#[derive(Drop)]
pub struct PlainOutput<W> {
    inner: W,
    failed: bool,
    // There is one where the writer was flushed and took nothing since.
    token: Option<FlushToken<W>>,
    mark: u32,
    ghost of_writer: { IfSome token (λ t. t.writer.value ≡ inner) } by { Prim.hlevel props },
}

impl<W: Write> PlainOutput<W> {
    /// The output over `inner`, with the mark `mark`; it has not failed.
    pub fn new(inner: W, mark: u32) -> PlainOutput<W>
        ensures inner { result.inner ≡ inner }
        ensures fresh { (result.failed ≡ false) × (result.mark ≡ mark) }
    {
        PlainOutput {
            inner,
            failed: false,
            token: None,
            mark,
        }
    }

    /// The writer.
    pub fn into_inner(self) -> W
        ensures { result ≡ self.inner }
    {
        self.inner
    }
}

impl<W: Write> Output for PlainOutput<W> {
    ghost contents = { λ o. W.contents o.inner };

    ghost has_failed = { λ o. o.failed };

    ghost is_flushed = { λ o. is_some o.token };

    ghost own_mark = { λ o. o.mark };

    // A write that was interrupted is tried again.
    fn offer(&mut self, bytes: &[u8]) -> Result<usize, OutputFault> {
        self.token = None;
        'tries: for _ in 0..u64::MAX {
            match self.inner.write(bytes) {
                Ok(n) => {
                    if n == 0 && !bytes.is_empty() {
                        self.failed = true;
                    }
                    return Ok(n);
                }
                Err(e) => {
                    if e.kind() != ErrorKind::Interrupted {
                        break;
                    }
                }
            }
        }
        self.failed = true;
        Err(OutputFault)
    }

    fn flush_out(&mut self) -> Result<(), OutputFault> {
        self.token = None;
        match flush_with_token(&mut self.inner) {
            Ok(token) => {
                self.token = Some(token);
                Ok(())
            }
            Err(_) => {
                self.failed = true;
                Err(OutputFault)
            }
        }
    }

    fn mark(&self) -> u32 {
        self.mark
    }
}
