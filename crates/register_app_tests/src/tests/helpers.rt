//! What the tests share: the arguments of a command line, and the program's answer to them over memory.

ghost use Rattle.std.specs.Prelude.{◌≡◌, [], ⊤, false};
ghost use Rattle.programs.specs.LoggedWriters.{logged_bytes};

use programs::{FileStore, LoggedWriter, Place};
use register_app::{Outcome, answer};
use register_records::{Output, PlainOutput};
use std::alloc::{AllocError, Global};
use std::io;
use std::io::{ErrorKind, Read, Write};
use std::sync::Wait;
use std::thread::Threads;
use std::time::{Clock, CpuClock};

/// The text of one record.
pub const ONE_RECORD: &[u8] = b"id,calendar,date\na,gregorian,1945-11-12\n";

/// Its table, with the column that `--to gregorian` asks for.
pub const ONE_ROW: &[u8] = b"\
    row,id,calendar,date,rd,weekday,gregorian,refusal\n\
    1,a,gregorian,1945-11-12,710347,Monday,1945-11-12,\n";

/// The arguments of a command line.
pub fn arguments_of(alloc: Global, arguments: &[&str]) -> Result<Vec<String>, AllocError> {
    let mut copied = Vec::new(alloc);
    for argument in arguments {
        copied.push(String::from_str(alloc, argument)?)?;
    }
    Ok(copied)
}

/// What the program answered: the status, standard output, the outputs of the files and standard error.
#[derive(Drop)]
pub struct Heard<W, E> {
    pub status: u8,
    pub output: W,
    pub outputs: Vec<W>,
    pub errors: E,
}

impl<W> Heard<W, Vec<u8>> {
    /// Whether the program gave this status, and reported this.
    pub fn reports(&self, status: u8, errors: &[u8]) -> bool {
        self.status == status && self.errors.as_slice() == errors
    }
}

impl Heard<Vec<u8>, Vec<u8>> {
    /// Whether the program gave this status, wrote this to standard output, and reported this.
    pub fn is_answer(&self, status: u8, output: &[u8], errors: &[u8]) -> bool {
        self.reports(status, errors) && self.output.as_slice() == output
    }
}

/// What the program answers to these arguments. Nothing is promised of it, so that a test that calls this is proved
/// without all that is proved of an answer.
fn answered<
    T: Threads + Wait + Clock + CpuClock + Sync,
    R: Read + Send + Drop,
    W: Write + Drop,
    E: Write + Drop,
    P: FileStore<R, PlainOutput<LoggedWriter<W>>>,
>(
    rt: &T,
    alloc: Global,
    arguments: &[String],
    input: R,
    output: W,
    store: &P,
    errors: &mut PlainOutput<LoggedWriter<E>>,
) -> Outcome<PlainOutput<LoggedWriter<W>>>
    requires { (logged_bytes errors.old.inner ≡ []) × (errors.old.failed ≡ false) }
{
    let output = PlainOutput::new(LoggedWriter::new(output), 1);
    answer(rt, alloc, arguments, input, output, store, errors)
}

/// The writers of these outputs.
fn writers_of<W: Write + Drop>(
    alloc: Global,
    outputs: Vec<PlainOutput<LoggedWriter<W>>>,
) -> Result<Vec<W>, AllocError> {
    let mut writers = Vec::new(alloc);
    for output in outputs {
        writers.push(output.into_inner().into_inner())?;
    }
    Ok(writers)
}

/// Runs the program's answer to these arguments.
pub fn hear<
    T: Threads + Wait + Clock + CpuClock + Sync,
    R: Read + Send + Drop,
    W: Write + Drop,
    E: Write + Drop,
    P: FileStore<R, PlainOutput<LoggedWriter<W>>>,
>(
    rt: &T,
    alloc: Global,
    arguments: &[&str],
    input: R,
    output: W,
    store: &P,
    errors: E,
) -> Result<Heard<W, E>, AllocError> {
    let arguments = arguments_of(alloc, arguments)?;
    let mut errors = PlainOutput::new(LoggedWriter::new(errors), 0);
    let Outcome {
        status,
        output,
        outputs,
        ran: _,
    } = answered(
        rt,
        alloc,
        arguments.as_slice(),
        input,
        output,
        store,
        &mut errors,
    );
    Ok(Heard {
        status,
        output: output.into_inner().into_inner(),
        outputs: writers_of(alloc, outputs)?,
        errors: errors.into_inner().into_inner(),
    })
}

/// A store without files.
pub struct NoFiles;

impl<R, W: Output> FileStore<R, W> for NoFiles {
    ghost is_opened = { λ _ _ _. ⊤ };

    ghost is_made = { λ _ _ _ _. ⊤ };

    ghost is_named = { λ _ _. ⊤ };

    ghost are_apart = { λ _ _ _. ⊤ };

    fn open(&self, _name: &str) -> io::Result<R> {
        Err(io::Error::from(ErrorKind::NotFound))
    }

    fn make(&self, _place: &mut Place, _mark: u32) -> io::Result<W> {
        Err(io::Error::from(ErrorKind::NotFound))
    }

    fn give_name(&self, _place: &Place) -> bool {
        false
    }

    fn are_one_file(&self, _name: &str, _other: &str) -> bool {
        false
    }
}

/// Runs the program's answer to these arguments over outputs in memory.
pub fn hear_in_memory<
    T: Threads + Wait + Clock + CpuClock + Sync,
    R: Read + Send + Drop,
    P: FileStore<R, PlainOutput<LoggedWriter<Vec<u8>>>>,
>(
    rt: &T,
    alloc: Global,
    arguments: &[&str],
    input: R,
    store: &P,
) -> Result<Heard<Vec<u8>, Vec<u8>>, AllocError> {
    let (output, errors) = (Vec::new(alloc), Vec::new(alloc));
    hear(rt, alloc, arguments, input, output, store, errors)
}
