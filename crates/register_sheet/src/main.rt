//! The program `register-sheet`: converts the dates in sheets.
//!
//! It reads CSV texts with columns of their own, from files or from standard input, and writes each with further columns
//! behind: the days of its dates in the calendars that the arguments ask for.
#![tactic(auto)]

mod built_names;

use built_names::{FIRST_NAMES, SECOND_NAMES, THIRD_NAMES};
use programs::{
    Destination, Disk, LoggedWriter, Source, arguments_of, end_without_memory, lines_to,
    open_nothing, unread_arguments,
};
use register_records::PlainOutput;
use sheet_app::{Outcome, Streams, answer};
use sheet_arguments::NAME;
use std::alloc::AllocError;
use std::process::ExitCode;

/// The built-in list of names.
fn whole_list<R: AllocGlobal>(rt: &R) -> Result<Vec<u8>, AllocError> {
    let mut names = Vec::new(rt.alloc());
    names.extend_from_slice(FIRST_NAMES.as_bytes())?;
    names.extend_from_slice(SECOND_NAMES.as_bytes())?;
    names.extend_from_slice(THIRD_NAMES.as_bytes())?;
    Ok(names)
}

fn main(rt: HostRuntime) -> ExitCode {
    // A standard stream that is closed leaves its number, 0, 1 or 2, free. It is taken here, so that no file that the
    // arguments name gets it: else what is meant for standard error could be written into a table.
    let _streams = [open_nothing(&rt), open_nothing(&rt), open_nothing(&rt)];
    let arguments = match arguments_of(&rt) {
        Ok(arguments) => arguments,
        Err(error) => return unread_arguments(&rt, NAME, &error),
    };
    let Ok(names) = whole_list(&rt) else {
        return end_without_memory(&rt, NAME);
    };
    let streams = Streams {
        input: Source::Input(rt.stdin()),
        output: PlainOutput::new(LoggedWriter::new(Destination::Output(rt.stdout())), 1),
    };
    let mut errors = PlainOutput::new(LoggedWriter::new(lines_to(rt.stderr(), NAME)), 0);
    let Outcome {
        status,
        output: _,
        sheets: _,
    } = answer(
        rt.alloc(),
        names.as_slice(),
        arguments.as_slice(),
        streams,
        &Disk::new(&rt),
        &mut errors,
    );
    ExitCode::from(status)
}
