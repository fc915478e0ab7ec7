//! How a program starts: its arguments, and the numbers of its standard streams.

ghost use Rattle.std.specs.Prelude.{◌≤◌, length};

use crate::own_lines::{OUT_OF_MEMORY, short_line};
use crate::statuses::{NOT_BEGUN, REFUSED};
use std::fs::OpenOptions;
use std::process::ExitCode;
use std::rt::{Env, Files};
use std::{env, io};

/// The arguments after the name of the program.
pub fn arguments_of<R: Env + AllocGlobal>(rt: &R) -> io::Result<Vec<String>> {
    let arguments = env::args(rt)?.skip(1).collect(rt.alloc())?;
    Ok(arguments)
}

/// Reports that memory ran out at the start, and returns the exit status.
pub fn end_without_memory(rt: &impl Eprint, program: &str) -> ExitCode
    requires short { length program.now ≤ 30 }
{
    let line = short_line(program, OUT_OF_MEMORY);
    let _ = eprint!(rt; "{}", line.as_str());
    ExitCode::from(NOT_BEGUN)
}

/// Reports why the arguments could not be read: memory ran out, status 3, or one is not UTF-8, status 2.
pub fn unread_arguments(rt: &impl Eprint, program: &str, error: &io::Error) -> ExitCode
    requires short { length program.now ≤ 30 }
{
    if error.kind() == io::ErrorKind::OutOfMemory {
        return end_without_memory(rt, program);
    }
    let line = short_line(program, "an argument is not UTF-8");
    let _ = eprint!(rt; "{}", line.as_str());
    ExitCode::from(REFUSED)
}

/// Opens a file that has no bytes. The system gives it the first free number.
pub fn open_nothing<R: Files>(rt: &R) -> Option<R::File> {
    OpenOptions::new().read(true).open(rt, "/dev/null").ok()
}
