//! The program `register`: converts the dates of historical registers.
//!
//! It reads CSV texts, from files or from standard input, and writes a table of each, with the day of each record in
//! the calendars that the arguments ask for.
#![tactic(auto)]

use programs::{
    Destination, Disk, LoggedWriter, Source, arguments_of, lines_to, open_nothing, unread_arguments,
};
use register_app::answer;
use register_arguments::NAME;
use register_records::PlainOutput;
use std::fs::OpenOptions;
use std::io::Write;
use std::process::ExitCode;
use std::rt::Files;

/// From so many arguments on a run may have many files. It then has many more threads than a machine has processors, and
/// does better where the system lets more of them sleep on and wakes them together.
const MANY_ARGUMENTS: usize = 8;

/// Asks the system to end each sleep at most 5 microseconds late, in place of 50: this thread's, and those of threads that
/// start later. Where it cannot be asked, they sleep a little longer.
fn shorten_naps(rt: &impl Files) {
    let asked = OpenOptions::new()
        .write(true)
        .open(rt, "/proc/self/timerslack_ns");
    let _ = asked.and_then(|mut slack| slack.write(b"5000"));
}

fn main(rt: HostRuntime) -> ExitCode {
    // A standard stream that is closed leaves its number, 0, 1 or 2, free. It is taken here, so that no file that the
    // arguments name gets it: else what is meant for standard error could be written into a table.
    let _streams = [open_nothing(&rt), open_nothing(&rt), open_nothing(&rt)];
    let arguments = match arguments_of(&rt) {
        Ok(arguments) => arguments,
        Err(error) => return unread_arguments(&rt, NAME, &error),
    };
    if arguments.len() < MANY_ARGUMENTS {
        shorten_naps(&rt);
    }
    let input = Source::Input(rt.stdin());
    let output = PlainOutput::new(LoggedWriter::new(Destination::Output(rt.stdout())), 1);
    let mut errors = PlainOutput::new(LoggedWriter::new(lines_to(rt.stderr(), NAME)), 0);
    let outcome = answer(
        &rt,
        rt.alloc(),
        arguments.as_slice(),
        input,
        output,
        &Disk::new(&rt),
        &mut errors,
    );
    ExitCode::from(outcome.status)
}
